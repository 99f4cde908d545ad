// How many cases there are of each kind.
ghost use Rattle.std.specs.Prelude.{◌≡◌, ◌+◌, min, replicate};

use classes::Class;
use output::Streams;

// Those that agree, of each class of those outside, and those that differ.
#[derive(Clone, Copy)]
pub struct Counts {
    agree: u64,
    // In the order of CLASSES.
    outside: [u64; 7],
    differ: u64,
}

// The classes by their names, in the order in which they are told.
const CLASSES: [(Class, &[u8]); 7] = [
    (Class::BadSetting, b"24"),
    (Class::BadUserAddress, b"25"),
    (Class::BeyondSlot, b"35"),
    (Class::LastByte, b"D1"),
    (Class::Tdco, b"D2"),
    (Class::Length, b"D3"),
    (Class::Absent, b"absent"),
];

fn place_of(class: Class) -> Option<usize> {
    CLASSES.iter().position(|(c, _)| *c == class)
}

fn tell_class(to: Streams, name: &[u8], n: u64) {
    to.write(b"outside ");
    to.write(name);
    to.write(b": ");
    to.number(n);
    to.write(b"\n");
}

impl Counts {
    pub(crate) fn new() -> Counts
        ensures { result ≡ record { agree = 0; outside = replicate 7 0; differ = 0 } }
    {
        Counts {
            agree: 0,
            outside: [0u64; 7],
            differ: 0,
        }
    }

    pub(crate) fn agree(&mut self)
        ensures { self.new ≡ record self.old { agree = min (self.old.agree + 1) u64.MAX } }
    {
        self.agree = self.agree.saturating_add(1);
    }

    pub(crate) fn outside(&mut self, class: Class)
        ensures { (self.new.agree ≡ self.old.agree) × (self.new.differ ≡ self.old.differ) }
    {
        let Some(k) = place_of(class) else {
            return;
        };
        if let Some(n) = self.outside.get_mut(k) {
            *n = n.saturating_add(1);
        }
    }

    pub(crate) fn differ(&mut self)
        ensures { self.new ≡ record self.old { differ = min (self.old.differ + 1) u64.MAX } }
    {
        self.differ = self.differ.saturating_add(1);
    }

    // The classes outside that there are, each with its count; and how many cases there are.
    pub(crate) fn tell(&self, to: Streams) {
        let mut outside: u64 = 0;
        for (n, (_, name)) in self.outside.iter().zip(CLASSES) {
            if 0 < *n {
                tell_class(to, name, *n);
            }
            outside = outside.saturating_add(*n);
        }
        to.number(
            self.agree
                .saturating_add(self.differ)
                .saturating_add(outside),
        );
        to.write(b" cases, ");
        to.number(self.agree);
        to.write(b" agree, ");
        to.number(self.differ);
        to.write(b" differ, ");
        to.number(outside);
        to.write(b" outside\n");
    }
}
