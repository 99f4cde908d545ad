// The bytes of an ask, put together in a lent buffer: its head, and the first bytes of the call's body.
#![tactic(auto)]

ghost use Rattle.std.specs.Prelude.{◌≡◌, ◌+◌, length, leb, if◌then◌else◌};
ghost use Rattle.parts.specs.Parts.{put};
ghost use Rattle.spi.specs.declared.ask.Ask.{Ask};
ghost use Rattle.send.specs.declared.next.Next.TheVariants.{Transfer, Short};
ghost use Rattle.send.specs.Send.{put_into, transfer_of, next_of};

use spi::{Ask, OpCode};

mod next;

pub use next::Next;

// A head that no body follows; `want` bytes are received.
fn put_head(head: &[u8], want: usize, tx: &mut [u8]) -> Next
    ensures { (result ≡ (if leb (length head.now) (length tx.old) then Transfer (length head.now) want else Short)) × (tx.new ≡ (if leb (length head.now) (length tx.old) then put tx.old 0 head.now else tx.old)) }
{
    let n = head.len();
    if tx.len() < n {
        return Next::Short;
    }
    parts::put_at(tx, 0, head);
    Next::Transfer { n, want }
}

// Whether a command and `n` bytes behind it lie in a buffer of `room` bytes; the sum of the two could wrap.
fn has_room(n: usize, room: usize) -> bool
    ensures { result ≡ leb (2 + n) room }
{
    2 <= room && n <= room - 2
}

// A command, and the first bytes of the body behind it.
fn put_body(address: u16, n: usize, body: &[u8], tx: &mut [u8]) -> Next
    ensures { (result ≡ transfer_of (Ask.Body address n) body.now tx.old) × (tx.new ≡ put_into (Ask.Body address n) body.now tx.old) }
{
    if body.len() < n || !has_room(n, tx.len()) {
        return Next::Short;
    }
    parts::put_at(tx, 0, &spi::command(OpCode::Write, address));
    parts::put_at(tx, 2, &body[..n]);
    Next::Transfer { n: 2 + n, want: 0 }
}

// What is to be done for an ask, its bytes put at the front of the buffer.
pub fn put_next(q: Ask, body: &[u8], tx: &mut [u8]) -> Next
    ensures { (result ≡ next_of q body.now tx.old) × (tx.new ≡ put_into q body.now tx.old) }
{
    match q {
        Ask::Read { address, count } => put_head(&spi::command(OpCode::Read, address), count, tx),
        Ask::Checked { address } => put_head(&spi::checked_read(address), 6, tx),
        Ask::Word { address, word } => put_head(&spi::write_word(address, word), 0, tx),
        Ask::Body { address, count } => put_body(address, count, body, tx),
        Ask::Reset => put_head(&spi::command(OpCode::Reset, 0), 0, tx),
        Ask::Wait => Next::Wait,
        Ask::Nothing => Next::Over,
    }
}
