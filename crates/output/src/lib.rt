// The streams of a program, and what is written to them. What can not be written is left out.
#![tactic(auto)]

use std::rt::{HostRuntime, Stderr, Stdin, Stdout};

#[derive(Clone, Copy)]
pub struct Streams {
    pub stdin: Stdin,
    pub stdout: Stdout,
    pub stderr: Stderr,
}

// To standard output.
pub fn write(stdout: Stdout, s: &[u8]) {
    let _ = stdout.write_all(s);
}

pub fn write_line(stdout: Stdout, s: &[u8]) {
    write(stdout, s);
    write(stdout, b"\n");
}

// A number's decimal digits.
fn in_digits<F: FnOnce(&[u8])>(n: u64, put: F)
    requires { (s : _) → F.pre put s }
{
    let mut digits = [0u8; 20];
    let k = io::decimal(n, &mut digits);
    put(&digits[..k]);
}

pub fn number(stdout: Stdout, n: u64) {
    in_digits(n, |s| write(stdout, s));
}

// A line that is not understood, by its number.
pub fn error(stdout: Stdout, at: u64) {
    write(stdout, b"error ");
    number(stdout, at);
    write(stdout, b"\n");
}

// On standard error.
pub fn tell(stderr: Stderr, s: &[u8]) {
    let _ = stderr.write_all(s);
}

pub fn tell_number(stderr: Stderr, n: u64) {
    in_digits(n, |s| tell(stderr, s));
}

impl Streams {
    pub fn new(rt: HostRuntime) -> Streams {
        Streams {
            stdin: rt.stdin(),
            stdout: rt.stdout(),
            stderr: rt.stderr(),
        }
    }

    pub fn write(self, s: &[u8]) {
        write(self.stdout, s);
    }

    pub fn write_line(self, s: &[u8]) {
        write_line(self.stdout, s);
    }

    pub fn number(self, n: u64) {
        number(self.stdout, n);
    }

    pub fn error(self, at: u64) {
        error(self.stdout, at);
    }

    pub fn tell(self, s: &[u8]) {
        tell(self.stderr, s);
    }

    pub fn tell_number(self, n: u64) {
        tell_number(self.stderr, n);
    }
}
