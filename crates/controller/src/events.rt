// What the bus events change.
ghost use Rattle.std.specs.Prelude.{◌≡◌, ◌%◌, List};
ghost use Rattle.contents.specs.declared.Contents.{Contents};
ghost use Rattle.rules.specs.Bus.{lookup, offers};
ghost use Rattle.masks.specs.Bits.{highest, mask_of, number_in};
ghost use Rattle.bus_steps.specs.Code.{is_ready};
ghost use Rattle.rules.specs.Steps.Step.{sync, sync_due, frame, fault, timeout};
ghost use Rattle.controller.specs.declared.Controller.{Controller};
ghost use Rattle.controller.specs.Carry.{heads, row_at};
ghost use Rattle.controller.specs.Code.{ruling_for, slot_ruling, kept_from, said_by, said_change, event_change, stored_by, frame_change, row_index, contents_at, slot_answer, slot_change, room_sent};

use crate::changes::{counted, with_answer};
use crate::{Change, Controller, Stored};
use contents::{BLANK, Contents};
use masks::NONE;
use rules::{Answer, Control, Fault, Refusal, Ruling, SyncKind, Verdict};

// Index of buffer n's row. For 16 (no buffer) any row will do; callers don't use it.
pub(crate) fn row_index(n: u8) -> usize
    ensures { result ≡ n % 16 }
{
    n as usize % 16
}

// The contents of buffer n, whose row is given; zeros for no buffer.
#[tactic(auto, unfolding(crate::specs::Code::contents_at, masks::specs::Pick::pick))]
fn contents_at(n: u8, row: Contents) -> Contents
    ensures { result ≡ contents_at n row }
{
    if n < NONE { row } else { BLANK }
}

// The control state d with the configuration, the locks and the waiting places of c. Of the events of the bus a frame alone changes these,
// and it takes another path: taken from c, from before the step, they are seen to be there already, and are not written back.
#[tactic(auto, unfolding(crate::specs::Code::kept_from))]
fn kept_from(c: Control, d: Control) -> Control
    ensures { result ≡ kept_from c d }
{
    Control {
        config: c.config,
        receive: c.receive,
        transmit: c.transmit,
        places: c.places,
        ..d
    }
}

// The answer of a verdict that sends nothing. No method of `Verdict`: crate rules doesn't have the definition.
fn answer_of(verdict: Verdict) -> Answer
    ensures { result ≡ said_by verdict }
{
    match verdict {
        Verdict::Say(a) | Verdict::Store(_, a) => a,
        Verdict::Send(_) => Answer::Ok,
    }
}

// A ruling that only answers, as a change of the control state c.
fn said(c: Control, r: Ruling) -> Change
    ensures { result ≡ said_change c r }
{
    with_answer(kept_from(c, r.next), answer_of(r.verdict))
}

// The room after a verdict on a slot: a sent frame fills its first bytes.
fn fill(verdict: Verdict, row: Contents, room: &mut [u8])
    ensures { (rows : List Contents) → row ≡ row_at rows (row_index verdict) → room.new ≡ room_sent rows room.old verdict }
{
    if let Verdict::Send(n) = verdict {
        sending::send(contents_at(n, row).bytes, room);
    }
}

// The lowest dedicated receive buffer with identifier i, if any.
fn lookup(c: Controller, i: u8) -> Option<u8>
    ensures { number_in result ≡ lookup c.control (heads c.rows) i }
{
    let d = c.control;
    let r = c.rows;
    search::lowest_with(r, kinds::receivers(d), i)
}

// The highest armed buffer with identifier i, if any.
fn offering(c: Controller, i: u8) -> Option<u8>
    ensures { number_in result ≡ highest (offers c.control (heads c.rows) i) 16 }
{
    let d = c.control;
    let r = c.rows;
    search::highest_with(r, kinds::armed(d), i)
}

// The full transmit buffers with an identifier: no other can be armed.
fn named(c: Controller) -> u16
    ensures { result ≡ mask_of (is_ready c.control (heads c.rows)) }
{
    let d = c.control;
    let r = c.rows;
    search::named(r, kinds::full(d))
}

// A sync of a kind.
pub fn sync(c: Controller, k: SyncKind) -> Change
    ensures { result ≡ event_change c (sync k) }
{
    let d = c.control;
    said(d, bus_steps::on_sync(d, k, named(c)))
}

// A sync due.
pub fn sync_due(c: Controller) -> Change
    ensures { result ≡ event_change c sync_due }
{
    let d = c.control;
    said(d, bus_steps::on_due(d, named(c)))
}

// A fault of the bus.
pub fn fault(c: Controller, k: Fault) -> Change
    ensures { result ≡ event_change c (fault k) }
{
    let d = c.control;
    said(d, bus_steps::on_fault(d, k))
}

// The alarm timeout.
pub fn timeout(c: Controller) -> Change
    ensures { result ≡ event_change c timeout }
{
    let d = c.control;
    said(d, bus_steps::on_timeout(d))
}

// Frames and slots touch one buffer's bytes: first the ruling, which names the buffer, then the change. A frame's change needs no row, for
// what is stored depends on the frame alone; a slot's needs the row that is sent. So beside the identifiers a step in place reads no
// other row.

// The ruling on a frame: its verdict and its bytes.
pub fn frame_ruling(c: Controller, good: bool, f: &[u8]) -> Ruling
    ensures { result ≡ ruling_for c (frame good f.now) }
{
    let d = c.control;
    if !receiving::well_sized(f) {
        return Ruling {
            next: d,
            verdict: Verdict::Say(Answer::from(Refusal::FrameSize)),
        };
    }
    let i = f[0];
    bus_steps::on_frame(d, good, i, lookup(c, i))
}

// What a verdict on the frame f stores.
fn stored(verdict: Verdict, f: &[u8]) -> Option<Stored>
    ensures { result ≡ stored_by f.now verdict }
{
    match verdict {
        Verdict::Store(to, _) => {
            let contents = Contents {
                bytes: receiving::store_frame(f),
            };
            Some(Stored { to, contents })
        }
        _ => None,
    }
}

// What a frame's ruling changes. It never sends. The count is worked out first: behind the frame's bytes it cost 50 instructions more.
#[tactic(auto, unfolding(crate::specs::Code::frame_change))]
pub fn frame_change(r: Ruling, f: &[u8]) -> Change
    ensures { result ≡ frame_change r f.now }
{
    let answered = counted(r.next, answer_of(r.verdict));
    Change {
        control: r.next,
        stored: stored(r.verdict, f),
        answered,
    }
}

// The ruling on slot i for a room of a size.
pub fn slot_ruling(c: Controller, i: u8, size: usize) -> Ruling
    ensures { result ≡ slot_ruling c i size }
{
    let d = c.control;
    if size < 14 {
        return Ruling {
            next: d,
            verdict: Verdict::Say(Answer::from(Refusal::RoomSize)),
        };
    }
    bus_steps::on_slot(d, i, offering(c, i))
}

// Index of the row of the buffer that a slot's ruling sends; any row where it sends none. It never stores.
pub fn row_of(r: Ruling) -> usize
    ensures { result ≡ row_index r.verdict }
{
    match r.verdict {
        Verdict::Send(n) => row_index(n),
        _ => 0,
    }
}

// The answer of a verdict on a slot.
fn slot_answer(verdict: Verdict, row: Contents) -> Answer
    ensures { result ≡ slot_answer row verdict }
{
    match verdict {
        Verdict::Say(a) | Verdict::Store(_, a) => a,
        Verdict::Send(n) => Answer::Sent(sending::frame_size(contents_at(n, row).bytes)),
    }
}

// What a slot's ruling changes, from its buffer's row; a sent frame fills the room's first bytes.
#[tactic(auto, unfolding(crate::specs::Code::slot_change))]
pub fn slot_change(r: Ruling, row: Contents, room: &mut [u8]) -> Change
    ensures value { result ≡ slot_change r row }
    ensures room_after { (c : Controller) → row ≡ row_at c.rows (row_index r.verdict) → room.new ≡ room_sent c.rows room.old r.verdict }
{
    fill(r.verdict, row, room);
    with_answer(r.next, slot_answer(r.verdict, row))
}
