// The registers of the filters: control, object and mask, each a type over its word.
#![tactic(auto)]

mod control;
mod mask;
mod object;

pub use control::FilterControl;
pub use mask::FilterMask;
pub use object::FilterObject;
