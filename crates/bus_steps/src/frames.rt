// Frames. What becomes of a frame is decided first, as an outcome; its marks are then written into the control state part by part.
// Where each outcome has a next state of its own, the compiler copies the whole state once more wherever two of them meet; where the
// outcome is an enum, each match on it later is one more jump.
ghost use Rattle.std.specs.Prelude.{◌≡◌, ℕ};
ghost use Rattle.masks.specs.Bits.{number_in};
ghost use Rattle.rules.specs.Modes.{cancel};
ghost use Rattle.rules.specs.Bus.{to_place, to_buffer, fifo_takes, to_fifo, raise_last, judged};
ghost use Rattle.bus_steps.specs.Code.{ruling_of};
ghost use Rattle.bus_steps.specs.CodeMarks.{free_place, unmarked, raising, risen, entered, marked, ruled_by};

use kinds::{is_locked, place_after};
use masks::NONE;
use rules::bits::{ERRIF, OVRNIF};
use rules::{Answer, Control, Fifo, Places, Target, Verdict};
use waiting::taken;

// What becomes of a frame: the verdict on it, and its marks in the control state.
#[derive(Clone, Copy)]
pub(crate) struct Outcome {
    pub(crate) verdict: Verdict,
    // SLPRQ after it
    slprq: bool,
    // the last identifier becomes the larger of itself and the frame's
    raises: bool,
    // the buffers whose IFLG is set
    iflg: u16,
    // the flags of $07 that are set
    gisr: u8,
    // the FIFO has one more entry
    queues: bool,
    // the waiting places after it
    places: Places,
}

// A verdict that marks nothing, but that SLPRQ is cancelled; p are the waiting places.
fn unmarked(p: Places, verdict: Verdict) -> Outcome
    ensures { result ≡ unmarked p verdict }
{
    Outcome {
        verdict,
        slprq: false,
        raises: false,
        iflg: 0,
        gisr: 0,
        queues: false,
        places: p,
    }
}

// A verdict on a sound frame: the last identifier is raised. The waiting places are then p.
fn raising(p: Places, verdict: Verdict) -> Outcome
    ensures { result ≡ raising p verdict }
{
    Outcome {
        raises: true,
        ..unmarked(p, verdict)
    }
}

// The FIFO takes identifier i: FSIZ is not 0, the acceptance filter matches it and the rejection filter doesn't reject it.
#[tactic(auto, unfolding(rules::specs::Bus::fifo_takes))]
fn fifo_takes(c: Control, i: u8) -> bool
    ensures { result ≡ fifo_takes c i }
{
    0 < c.config.fsiz && c.config.accept.matches(i) && !c.config.reject.rejects(i)
}

// The place that a frame takes: the first if it is free, else the second, else none.
#[tactic(auto, unfolding(crate::specs::CodeMarks::free_place, masks::specs::Pick::pick))]
fn free_place(p: Places) -> Option<u8>
    ensures { result ≡ free_place p }
{
    if NONE <= p.first {
        Some(0)
    } else if NONE <= p.second {
        Some(1)
    } else {
        None
    }
}

// A frame for buffer n, which is locked: it takes a free place, or is dropped.
fn to_place(c: Control, n: u8) -> Outcome
    ensures { (i : ℕ) → ruled_by c i result ≡ ruling_of (to_place (raise_last (cancel c) i) n) }
{
    let p = c.places;
    match free_place(p) {
        Some(k) => raising(
            taken(p, k, n),
            Verdict::Store(Target::Place(k), Answer::Waiting(n)),
        ),
        None => raising(p, Verdict::Say(Answer::HeldOff(n))),
    }
}

// A frame for dedicated receive buffer n.
fn to_buffer(c: Control, n: u8) -> Outcome
    ensures { (i : ℕ) → ruled_by c i result ≡ ruling_of (to_buffer (raise_last (cancel c) i) n) }
{
    if is_locked(c, n) {
        return to_place(c, n);
    }
    let stored = Verdict::Store(Target::Buffer(n), Answer::Stored(n));
    Outcome {
        iflg: masks::one(n),
        ..raising(c.places, stored)
    }
}

// A frame that no dedicated receive buffer carries.
fn to_fifo(c: Control, i: u8) -> Outcome
    ensures { ruled_by c i result ≡ ruling_of (to_fifo (raise_last (cancel c) i) i) }
{
    let p = c.places;
    if !fifo_takes(c, i) {
        return raising(p, Verdict::Say(Answer::Unmatched));
    }
    if c.config.fsiz <= c.fifo.count {
        return Outcome {
            gisr: OVRNIF,
            ..raising(p, Verdict::Say(Answer::Overrun))
        };
    }
    let n = c.fifo.next;
    let queued = Verdict::Store(Target::Buffer(n), Answer::Queued(n));
    Outcome {
        queues: true,
        ..raising(p, queued)
    }
}

// A frame with identifier i in normal operation, awake, whose dedicated receive buffer is n, if there is one: ignored if
// unsynchronized, 'badframe', else to its buffer or the FIFO.
pub(crate) fn judged(c: Control, good: bool, i: u8, n: Option<u8>) -> Outcome
    ensures { ruled_by c i result ≡ ruling_of (judged c good i (number_in n)) }
{
    let p = c.places;
    if !c.mode.synced {
        return Outcome {
            slprq: c.mode.slprq,
            ..unmarked(p, Verdict::Say(Answer::Ignored))
        };
    }
    if !good || i == 0 {
        return Outcome {
            gisr: ERRIF,
            ..unmarked(p, Verdict::Say(Answer::BadFrame))
        };
    }
    match n {
        Some(n) if n < NONE => to_buffer(c, n),
        _ => to_fifo(c, i),
    }
}

// The last identifier after a frame with identifier i.
#[tactic(auto, unfolding(crate::specs::CodeMarks::risen, masks::specs::Pick::pick))]
fn risen(last: u8, raises: bool, i: u8) -> u8
    ensures { result ≡ risen last raises i }
{
    if raises { last.max(i) } else { last }
}

// The FIFO after a frame. Where the frame queues there is room (`to_fifo`); asked again here, so that the function is total.
#[tactic(auto, unfolding(crate::specs::CodeMarks::entered, masks::specs::Pick::pick))]
fn entered(c: Control, queues: bool) -> Fifo
    ensures { result ≡ entered c queues }
{
    let f = c.fifo;
    if queues && f.count < c.config.fsiz {
        return Fifo {
            next: place_after(c.config.fsiz, f.next),
            count: f.count + 1,
            ..f
        };
    }
    f
}

// The control state after a frame with identifier i and outcome o.
#[tactic(auto, unfolding(crate::specs::CodeMarks::marked))]
pub(crate) fn marked(c: Control, o: Outcome, i: u8) -> Control
    ensures { result ≡ marked c o i }
{
    let mut next = c;
    next.mode.last = risen(c.mode.last, o.raises, i);
    next.mode.slprq = o.slprq;
    next.places = o.places;
    next.events.gisr |= o.gisr;
    next.buffers.iflg |= o.iflg;
    next.fifo = entered(c, o.queues);
    next
}
