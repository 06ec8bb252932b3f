// The step on a lent record, changed in place: one public function over what crate controller says that a call changes. Each kind of
// step has a path of its own, so that none carries what another changes: a read writes nothing, and a call that touches no
// buffer's bytes writes the control state alone.
#![tactic(auto)]

ghost use Rattle.std.specs.Prelude.{◌≡◌, ◌≤◌, length};
ghost use Rattle.rules.specs.Steps.Step.{frame as frame_step, write as write_step};
ghost use Rattle.controller.specs.Session.{step_of};
ghost use Rattle.controller.specs.Calls.{answered_of, step_for, room_for};

use controller::changes::{accepted, carry};
use controller::{Answered, Call, Controller, events, registers};

// The record as it stands. A proof knows how many rows a value has, and not how many lie behind a reference whose rows nobody reads.
fn whole(c: Controller) -> Controller
    ensures same { result ≡ c }
    ensures rows { length c.rows ≡ 16 }
{
    c
}

// The step of a frame: none of its bytes is copied but to a buffer, whose length and data of before are not read.
fn frame(c: &mut Controller, good: bool, f: &[u8]) -> Answered
    ensures { (c.new ≡ (step_of c.old (frame_step good f.now)).next) × (result ≡ answered_of (step_of c.old (frame_step good f.now))) }
{
    let r = events::frame_ruling(whole(*c), good, f);
    let x = events::frame_change(r, f);
    carry(c, x)
}

// The step of a register write from $20 on: in a window the bytes of its holder change alone, and for a control register the control state
// and the buffer whose frame waited. Each way stores no more than that.
fn reached(c: &mut Controller, a: u8, v: u8) -> Answered
    ensures { 0x20 ≤ a → (c.new ≡ (step_of c.old (write_step a v)).next) × (result ≡ answered_of (step_of c.old (write_step a v))) }
{
    if a < 0x50 {
        let d = c.control;
        let i = registers::window_row(d, a);
        let row = c.rows[i];
        let x = registers::window_change(d, a, v, row);
        carry(c, x)
    } else {
        let d = c.control;
        let n = a - 0x50;
        let k = registers::newest_place(d, n);
        let image = c.held[k];
        let x = registers::control_change(d, n, v, image);
        carry(c, x)
    }
}

// The step of a register write: below $20 it changes no buffer's bytes.
fn write(c: &mut Controller, a: u8, v: u8) -> Answered
    ensures { (c.new ≡ (step_of c.old (write_step a v)).next) × (result ≡ answered_of (step_of c.old (write_step a v))) }
{
    if a < 0x20 {
        let d = whole(*c);
        let x = registers::low_change(d.control, a, v);
        carry(c, x)
    } else {
        reached(c, a, v)
    }
}

// The step: the record after it, its answer with the count of examined buffers, and the room. Only a slot looks at the room, and only a
// frame at the bytes f.
pub fn step(c: &mut Controller, call: Call, f: &[u8], room: &mut [u8]) -> Answered
    ensures { (c.new ≡ (step_of c.old (step_for call f.now room.old)).next) × (result ≡ answered_of (step_of c.old (step_for call f.now room.old))) × (room.new ≡ room_for c.old call room.old) }
{
    match call {
        Call::Reset => {
            *c = Controller::after_reset();
            accepted()
        }
        Call::Read(a) => {
            let d = c.control;
            let i = registers::window_row(d, a);
            let row = c.rows[i];
            registers::shown(*c, a, row)
        }
        Call::Write(a, v) => write(c, a, v),
        Call::Sync(k) => {
            let x = events::sync(*c, k);
            carry(c, x)
        }
        Call::SyncDue => {
            let x = events::sync_due(*c);
            carry(c, x)
        }
        Call::Slot(i) => {
            let r = events::slot_ruling(*c, i, room.len());
            let k = events::row_of(r);
            let row = c.rows[k];
            let x = events::slot_change(r, row, room);
            carry(c, x)
        }
        Call::Frame(good) => frame(c, good, f),
        Call::Fault(k) => {
            let x = events::fault(*c, k);
            carry(c, x)
        }
        Call::Timeout => {
            let x = events::timeout(*c);
            carry(c, x)
        }
    }
}
