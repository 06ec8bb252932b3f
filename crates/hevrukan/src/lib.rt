// The emulated controller for callers in C: a record that the caller owns, and steps on it by numbers. Crate hevrukan_c exports these
// functions under their names. Each but the first two is given the record's size and looks at that alone where it is another, so that a
// caller that was built for another record is told so.
#![tactic(auto, unfolding(masks::specs::Pick::pick, encoding::specs::Answers::wrong_number, encoding::specs::Answers::said_number, encoding::specs::Answers::number_of, encoding::specs::Code::sized_of, crate::specs::Interface::effect_of, crate::specs::Interface::step_effect, crate::specs::Interface::reset_next, crate::specs::Interface::reset_answer, crate::specs::Interface::lines_answer, crate::specs::Interface::buffer_effect, crate::specs::Interface::waiting_effect))]

ghost use Rattle.std.specs.Prelude.{◌≡◌, ◌&&◌, eqb, ltb};
ghost use Rattle.std.specs.Result.{is_ok};
ghost use Rattle.std.specs.Option.{is_some};
ghost use Rattle.encoding.specs.Answers.{said_number};
ghost use Rattle.encoding.specs.Calls.{record_size, call_of};
ghost use Rattle.encoding.specs.Shown.{place_of};
ghost use Rattle.hevrukan.specs.Interface.{version_number, step_effect, reset_next, reset_answer, lines_answer, buffer_effect, waiting_effect};

use controller::Controller;
use encoding::answers::number;
use encoding::calls::{asked, sized};
use encoding::{SIZE, Wrong, shown};

const VERSION: u32 = 600;

// The bytes of a record.
pub fn hevrukan_size() -> usize
    ensures { result ≡ record_size }
{
    SIZE
}

// The library's version: 10000 times its first number, 100 times its second, and its third.
pub fn hevrukan_version() -> u32
    ensures { result ≡ version_number }
{
    VERSION
}

// The record as after reset, whatever it held.
pub fn hevrukan_reset(c: &mut Controller, size: usize) -> Result<u32, Wrong>
    ensures effect { (c.new ≡ reset_next c.old size) × (said_number result ≡ reset_answer size) }
    ensures is_ok { is_ok result ≡ eqb size record_size }
{
    sized(size)?;
    *c = Controller::after_reset();
    Ok(0)
}

// The step of a kind. Only a frame looks at the frame's bytes, and only a slot at the room.
pub fn hevrukan_step(
    c: &mut Controller,
    size: usize,
    kind: u32,
    first: u32,
    second: u32,
    frame: &[u8],
    room: &mut [u8],
) -> Result<u32, Wrong>
    ensures effect { step_effect c.old size kind first second frame.now room.old ≡ record { next = c.new; answer = said_number result; room = room.new } }
    ensures is_ok { is_ok result ≡ (eqb size record_size && is_some (call_of kind first second)) }
{
    sized(size)?;
    let call = asked(kind, first, second)?;
    Ok(number(in_place::step(c, call, frame, room)))
}

// The five lines, 0 to 31: bit 4 FIFO, 3 receive, 2 sync, 1 XSYNC, 0 general.
pub fn hevrukan_lines(c: &Controller, size: usize) -> Result<u32, Wrong>
    ensures effect { said_number result ≡ lines_answer c.now size }
    ensures is_ok { is_ok result ≡ eqb size record_size }
{
    sized(size)?;
    Ok(u32::from(c.lines()))
}

// What buffer n holds, written over the first fourteen bytes of the room. Nothing of the record is changed.
pub fn hevrukan_buffer(c: &Controller, size: usize, n: u32, room: &mut [u8]) -> Result<u32, Wrong>
    ensures effect { buffer_effect c.now size n room.old ≡ record { answer = said_number result; room = room.new } }
    ensures is_ok { is_ok result ≡ (eqb size record_size && ltb n 16) }
{
    sized(size)?;
    shown::buffer(c, n, room)
}

// The same of the k-th frame that waits, 0 the oldest.
pub fn hevrukan_waiting(c: &Controller, size: usize, k: u32, room: &mut [u8]) -> Result<u32, Wrong>
    ensures effect { waiting_effect c.now size k room.old ≡ record { answer = said_number result; room = room.new } }
    ensures is_ok { is_ok result ≡ (eqb size record_size && is_some (place_of c.now.control k)) }
{
    sized(size)?;
    shown::waiting(c, k, room)
}
