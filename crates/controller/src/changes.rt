// A change, and the record after it.
ghost use Rattle.std.specs.Prelude.{◌≡◌, set};
ghost use Rattle.controller.specs.Calls.{accepted};
ghost use Rattle.controller.specs.Code.{counted_by, unlooked, changed, saying, placing};
ghost use Rattle.rules.specs.LookedLaws.{looked_by};

use crate::{Answered, Change, Controller, Done, Stored};
use contents::Contents;
use masks::NONE;
use rules::{Answer, Control, Target};

// How many dedicated receive buffers were examined for an answer after which the control state is c: those up to the buffer that
// carries the frame's identifier, or all. No frame changes which they are.
#[tactic(auto, unfolding(rules::specs::LookedLaws::looked_by, masks::specs::Pick::pick))]
fn looked(c: Control, a: Answer) -> u8
    ensures { result ≡ looked_by c a }
{
    match a {
        Answer::Stored(n) | Answer::Waiting(n) | Answer::HeldOff(n) => {
            kinds::examined(c, Some(n))
        }
        Answer::Queued(_) | Answer::Overrun | Answer::Unmatched => kinds::examined(c, None),
        _ => 0,
    }
}

// An answer of no lookup.
pub(crate) fn unlooked(answer: Answer) -> Answered
    ensures { result ≡ unlooked answer }
{
    Answered { answer, looked: 0 }
}

// The answer of a step that is done and shows nothing.
pub fn accepted() -> Answered
    ensures { result ≡ accepted }
{
    unlooked(Answer::Ok)
}

// An answer with its count, c being the control state after it.
pub(crate) fn counted(c: Control, a: Answer) -> Answered
    ensures { result ≡ counted_by c a }
{
    Answered {
        answer: a,
        looked: looked(c, a),
    }
}

// The control state alone, where nothing was looked up.
pub(crate) fn with_answer(control: Control, a: Answer) -> Change
    ensures { result ≡ saying control (unlooked a) }
{
    Change {
        control,
        stored: None,
        answered: unlooked(a),
    }
}

// The control state, and the bytes of buffer n, where nothing was looked up.
pub(crate) fn with_bytes(control: Control, n: u8, contents: Contents, a: Answer) -> Change
    ensures { result ≡ placing control n contents (unlooked a) }
{
    let to = Target::Buffer(n);
    Change {
        control,
        stored: Some(Stored { to, contents }),
        answered: unlooked(a),
    }
}

// Row n becomes contents; past the last there is none. By index: what `get_mut` lends is not tied to the rows afterwards, and nothing
// would be proved.
fn put(rows: &mut [Contents], n: u8, contents: Contents)
    ensures { rows.new ≡ set rows.old n contents }
{
    let i = n as usize;
    if i < rows.len() {
        rows[i] = contents;
    }
}

// The change carried out: the control state, and the one buffer or waiting place whose bytes change. The control state first: what the
// compiler sees to be there already, since nothing was stored after it was read, is not written back.
pub fn carry(c: &mut Controller, x: Change) -> Answered
    ensures next { c.new ≡ (changed c.old x).next }
    ensures answered { result ≡ x.answered }
{
    c.control = x.control;
    if let Some(Stored { to, contents }) = x.stored {
        match to {
            Target::Buffer(n) => put(&mut c.rows, n, contents),
            Target::Place(k) => put(&mut c.held, k, contents),
        }
    }
    x.answered
}

// The record after a change, and what it is answered.
pub(crate) fn carried(c: Controller, x: Change) -> Done
    ensures { result ≡ changed c x }
{
    let mut next = c;
    let answered = carry(&mut next, x);
    Done { next, answered }
}
