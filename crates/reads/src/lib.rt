// What the control state shows: what its registers, flags, vectors and interrupt lines read.
#![tactic(auto)]

pub mod flags;
pub mod registers;
