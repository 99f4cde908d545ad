// Lines of standard input, of any number and any length.
#![tactic(auto)]

ghost use Rattle.std.specs.Prelude.{◌≡◌, ◌==◌, ◌≤◌, length};

use std::io::Read;
use std::rt::{Stderr, Stdin};

// A line, or the front of one that is longer than the buffer.
#[derive(Clone, Copy, Default)]
pub struct Line<'a> {
    pub text: &'a [u8],
    pub long: bool,
}

// The line so far, at the front of its buffer.
#[derive(Drop)]
struct Filled<'a> {
    buffer: &'a mut [u8],
    len: usize,
    ghost inside: { len ≤ length buffer.now },
}

impl<'a> Filled<'a> {
    fn line(&self) -> &[u8]
        ensures { length result.now ≡ self.now.len }
    {
        &self.buffer[..self.len]
    }

    fn is_full(&self) -> bool
        ensures { result ≡ (self.now.len == length self.now.buffer.now) }
    {
        self.len == self.buffer.len()
    }

    // A byte more: spaces that follow a space, or stand in front, are left out.
    fn push(&mut self, b: u8) {
        if b == b' ' && matches!(self.line(), [] | [.., b' ']) || self.is_full() {
            return;
        }
        self.buffer[self.len] = b;
        self.len += 1;
    }

    // Without a carriage return at the end. Of a line that fills its buffer the end is not there.
    fn cut_return(&mut self) {
        if !self.is_full() && matches!(self.line(), [.., b'\r']) {
            self.len -= 1;
        }
    }

    // A line that fills its buffer is taken for one that is longer.
    fn ended(self) -> Line<'a> {
        let Filled { buffer, len } = self;
        if len == buffer.len() {
            return Line {
                text: buffer,
                long: true,
            };
        }
        let text = &buffer[..len];
        Line {
            text: text.strip_suffix(b" ").unwrap_or(text),
            long: false,
        }
    }
}

// Standard input, and which bytes of the piece that was read last are left.
#[derive(Drop)]
struct Reader<'a> {
    stdin: Stdin,
    stderr: Stderr,
    piece: &'a mut [u8],
    at: usize,
    have: usize,
}

impl<'a> Reader<'a> {
    // Before the first line.
    fn new(stdin: Stdin, stderr: Stderr, piece: &'a mut [u8]) -> Reader<'a> {
        Reader {
            stdin,
            stderr,
            piece,
            at: 0,
            have: 0,
        }
    }

    // How many bytes of the next piece were read. A read that fails ends the input, and is told.
    fn fetched(&mut self) -> usize {
        let mut input = self.stdin;
        match input.read(self.piece) {
            Ok(n) => n,
            Err(_) => {
                output::tell(self.stderr, b"standard input can not be read\n");
                0
            }
        }
    }

    // The next byte; the next piece is read where none is left, and at the input's end there is none.
    fn next_byte(&mut self) -> Option<u8> {
        if self.have <= self.at {
            self.have = self.fetched();
            self.at = 0;
        }
        if self.have <= self.at {
            return None;
        }
        let at = self.at;
        self.at += 1;
        self.piece.get(at).copied()
    }

    // The next line, without the spaces at its ends and with single spaces between its words, and without a carriage return before its
    // newline; none at the input's end. No input has so many bytes that the turns run out.
    fn next_line<'b>(&mut self, line: &'b mut [u8]) -> Option<Line<'b>> {
        let mut filled = Filled {
            buffer: line,
            len: 0,
        };
        for _ in 0..u64::MAX {
            let Some(b) = self.next_byte() else {
                if filled.len == 0 {
                    return None;
                }
                break;
            };
            if b == b'\n' {
                filled.cut_return();
                break;
            }
            filled.push(b);
        }
        Some(filled.ended())
    }
}

// Each line of standard input, in order, put into the buffer. No input has so many that the turns run out.
pub fn each_line<F: FnMut(Line<'_>)>(stdin: Stdin, stderr: Stderr, buffer: &mut [u8], mut visit: F)
    requires { F.IsAlwaysCallable visit }
{
    let mut piece = io::large_buffer();
    let mut input = Reader::new(stdin, stderr, &mut piece);
    for _ in 0..u64::MAX {
        let Some(line) = input.next_line(buffer) else {
            return;
        };
        visit(line);
    }
}
