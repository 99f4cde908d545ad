// What modify, request and every mode, configuration and short echo call do: a list of items, carried out one after the other.
#![tactic(auto)]

mod change;
mod item;

pub use change::{Change, change_at, change_of, keeping, modified_word};
pub use item::{Item, Poll, echo_word, is_shown, is_there, late};
