// What the bytes of an exchange ask the modelled chip for.
#![tactic(auto)]

mod operation;

pub use operation::{Operation, asked};
