// The calls and the answers of the C interface as numbers: what a kind and its two numbers stand for, and the number of an answer.
#![tactic(auto)]

ghost use Rattle.std.specs.Prelude.{◌≡◌};
ghost use Rattle.encoding.specs.Answers.{wrong_number};

use controller::Controller;
use std::mem::size_of;

pub mod answers;
pub mod calls;
pub mod shown;

// The bytes of a record for C: a test holds it to C's sizeof of the same fields. It tells callers apart that were built when the record
// had no waiting places, or an answer no count.
pub const SIZE: usize = size_of::<Controller>();

// Why a caller gets no answer of the controller: the kind or a number names nothing, its record is of another size, no frame waits.
#[derive(Clone, Copy, Debug, PartialEq, Eq)]
pub enum Wrong {
    Unknown,
    Size,
    NoFrame,
}

// Their words, 64, 65 and 66, are no step's.
#[tactic(auto, unfolding(crate::specs::Answers::wrong_number))]
impl From<Wrong> for u32 {
    ghost from_gives = { λ w n. n ≡ wrong_number w };

    fn from(w: Wrong) -> u32 {
        match w {
            Wrong::Unknown => 256 * 64,
            Wrong::Size => 256 * 65,
            Wrong::NoFrame => 256 * 66,
        }
    }
}
