// How a call ends: what all calls share.
#![tactic(auto)]

use header::Header;
use spi::Refusal;

// A message that was found in a receive FIFO, with the DLC that it was received with and the number of the filter that took it. Its payload of
// `len` bytes is in the lent buffer.
#[derive(Clone, Copy)]
pub struct Found {
    pub header: Header,
    pub dlc: u8,
    pub filter: u8,
    pub stamp: Option<u32>,
    pub len: u8,
}

// What came of a scrub step's rewrite: none was told; the word of the checked read-back and how many of its exchanges mismatched before
// it; what the write or else the read-back was refused with.
#[derive(Clone, Copy)]
pub enum Rewrite {
    None,
    Back(u32, u8),
    Unread(Refusal),
}

// What a scrub step reports of the entry that it visited: the cared-for bits agree; they do not, with the word read and the wanted
// one; the checked read was refused. `mismatches`: how many of its exchanges mismatched before the word was read.
#[derive(Clone, Copy)]
pub enum Report {
    Agree {
        address: u16,
        mismatches: u8,
    },
    Differ {
        address: u16,
        read: u32,
        wanted: u32,
        mismatches: u8,
        rewrite: Rewrite,
    },
    Unread {
        address: u16,
        why: Refusal,
    },
}

#[derive(Clone, Copy)]
pub enum Outcome {
    // The call still asks for something.
    Running,
    Done,
    // The word of a register; that of a checked read, with how many exchanges mismatched before it; the mode that CiCON shows.
    Word(u32),
    Checked(u32, u8),
    Mode(u32),
    // Whether there is a next message.
    Yes,
    No,
    // No message is held.
    Empty,
    Message(Found),
    Scrubbed(Report),
    Refused(Refusal),
}
