// What the caller's loop does now.
#[derive(Clone, Copy)]
pub enum Next {
    // The first `n` bytes of the buffer are sent, then `want` are received.
    Transfer { n: usize, want: usize },
    // A wait of 500 microseconds.
    Wait,
    // Nothing: the call is over.
    Over,
    // Nothing can be sent: the buffer, or what was lent, is too short, and no byte was put.
    Short,
}
