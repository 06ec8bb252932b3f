// What libhevrukan.a exports: the functions of crate hevrukan under their names, with what is wrong as a number.
#![tactic(auto)]

ghost use Rattle.std.specs.Prelude.{◌≡◌};
ghost use Rattle.encoding.specs.Calls.{record_size};
ghost use Rattle.hevrukan.specs.Interface.{version_number, step_effect, reset_next, reset_answer, lines_answer, buffer_effect, waiting_effect};

use controller::Controller;
use encoding::answers::said;

// The bytes of a record.
#[unsafe(no_mangle)]
pub extern "C" fn hevrukan_size() -> usize
    ensures { result ≡ record_size }
{
    hevrukan::hevrukan_size()
}

// The library's version: 10000 times its first number, 100 times its second, and its third.
#[unsafe(no_mangle)]
pub extern "C" fn hevrukan_version() -> u32
    ensures { result ≡ version_number }
{
    hevrukan::hevrukan_version()
}

// The record as after reset, whatever it held.
#[unsafe(no_mangle)]
pub extern "C" fn hevrukan_reset(c: &mut Controller, size: usize) -> u32
    ensures { (c.new ≡ reset_next c.old size) × (result ≡ reset_answer size) }
{
    said(hevrukan::hevrukan_reset(c, size))
}

// The step of a kind. Only a frame looks at the frame's bytes, and only a slot at the room.
#[unsafe(no_mangle)]
pub extern "C" fn hevrukan_step(
    c: &mut Controller,
    size: usize,
    kind: u32,
    first: u32,
    second: u32,
    frame: &[u8],
    room: &mut [u8],
) -> u32
    ensures { step_effect c.old size kind first second frame.now room.old ≡ record { next = c.new; answer = result; room = room.new } }
{
    said(hevrukan::hevrukan_step(c, size, kind, first, second, frame, room))
}

// The five lines, 0 to 31: bit 4 FIFO, 3 receive, 2 sync, 1 XSYNC, 0 general.
#[unsafe(no_mangle)]
pub extern "C" fn hevrukan_lines(c: &Controller, size: usize) -> u32
    ensures { result ≡ lines_answer c.now size }
{
    said(hevrukan::hevrukan_lines(c, size))
}

// What buffer n holds, written over the first fourteen bytes of the room. Nothing of the record is changed.
#[unsafe(no_mangle)]
pub extern "C" fn hevrukan_buffer(c: &Controller, size: usize, n: u32, room: &mut [u8]) -> u32
    ensures { buffer_effect c.now size n room.old ≡ record { answer = result; room = room.new } }
{
    said(hevrukan::hevrukan_buffer(c, size, n, room))
}

// The same of the k-th frame that waits, 0 the oldest.
#[unsafe(no_mangle)]
pub extern "C" fn hevrukan_waiting(c: &Controller, size: usize, k: u32, room: &mut [u8]) -> u32
    ensures { waiting_effect c.now size k room.old ≡ record { answer = result; room = room.new } }
{
    said(hevrukan::hevrukan_waiting(c, size, k, room))
}
