// The loop over a piece's lines on a lent controller: a line's step is read, done, and its row is written; then the next.
ghost use Rattle.std.specs.Prelude.{◌≡◌};
ghost use Rattle.controller.specs.Session.{step_of};
ghost use Rattle.controller.specs.Calls.{answered_of, step_for, room_for};
ghost use Rattle.lines.specs.Grammar.{bytes_in};
ghost use Rattle.replaying.specs.CodeLoop.{Turns, Plays};

use crate::{At, turns};
use controller::{Answered, Call, Controller};
use lines::FrameBytes;

// The step on the lent controller, the frame's bytes being a value. Its size and not a method that lends its bytes: measured, that cost 3 %
// of a recording of long frames.
fn step(c: &mut Controller, call: Call, f: FrameBytes, room: &mut [u8]) -> Answered
    ensures { (c.new ≡ (step_of c.old (step_for call (bytes_in f) room.old)).next) × (result ≡ answered_of (step_of c.old (step_for call (bytes_in f) room.old))) × (room.new ≡ room_for c.old call room.old) }
{
    in_place::step(c, call, &f.bytes[..lines::frame_size(f)], room)
}

// One line: its step is read where it lies, done on the lent controller, and its row written. None where the line doesn't end here.
fn line_in_place(
    c: &mut Controller,
    room: &mut [u8],
    piece: &[u8],
    out: &mut [u8],
    t: At,
) -> Option<At>
    ensures { Turns c.old room.old piece.now out.old t result c.new room.new out.new }
{
    let Some(f) = turns::seek(piece, t) else {
        return turns::unread_line(piece, out, t);
    };
    let a = step(c, f.call, f.frame, room);
    let irq = turns::lines_after(*c, a, t.irq);
    Some(turns::answered(room, out, t, f.at, a, irq))
}

// All lines of the piece, as far as the room goes.
pub(crate) fn lines_in_place(
    c: &mut Controller,
    room: &mut [u8],
    piece: &[u8],
    out: &mut [u8],
    start: At,
) -> At
    ensures { Plays c.old room.old piece.now out.old start result c.new room.new out.new }
{
    let mut t = start;
    while turns::goes_on(t, piece.len(), out.len()) {
        let Some(next) = line_in_place(c, room, piece, out, t) else {
            return t;
        };
        t = next;
    }
    t
}
