// What is shown of a record where no step is made: the bytes that a buffer holds, and those of a frame that waits. They are written over
// the first of a room; where the answer is another, the room stays as it is.
#![tactic(auto, unfolding(masks::specs::Pick::pick, contents::specs::Bytes::fill_room, crate::specs::Answers::wrong_number, crate::specs::Answers::said_number, crate::specs::Shown::plain, crate::specs::Shown::shown_bytes, crate::specs::Shown::buffer_shown, crate::specs::Shown::taken_places, crate::specs::Shown::place_of, crate::specs::Shown::held_shown, crate::specs::Shown::waiting_shown, crate::specs::Code::place_by, rules::specs::Refusals::refusal_number))]

ghost use Rattle.std.specs.Prelude.{◌≡◌, ◌<◌, not, ltb, IfOk};
ghost use Rattle.std.specs.Result.{is_ok};
ghost use Rattle.std.specs.Option.{is_some};
ghost use Rattle.std.specs.Bool.{then_some};
ghost use Rattle.rules.specs.Waiting.{waits_for, is_free};
ghost use Rattle.encoding.specs.Answers.{said_number};
ghost use Rattle.encoding.specs.Shown.{plain, shown_bytes, buffer_shown, place_of, waiting_shown};
ghost use Rattle.encoding.specs.Code.{place_by};

use crate::Wrong;
use crate::answers::number;
use controller::{Answered, Controller};
use masks::NONE;
use rules::{Answer, Control, Places, Refusal};

// The number of an answer for which no buffer was examined. As crate controller's `unlooked`, which isn't public: that would be one promise
// more for this line.
fn plain(answer: Answer) -> u32
    ensures { result ≡ plain answer }
{
    number(Answered { answer, looked: 0 })
}

// Writes the fourteen bytes over the first of the room, for an answer that says so.
fn put(answer: Answer, bytes: [u8; 14], room: &mut [u8]) -> u32
    ensures { shown_bytes (plain answer) (record { bytes = bytes }) room.old ≡ record { answer = result; room = room.new } }
{
    if room.len() < 14 {
        return plain(Answer::from(Refusal::RoomSize));
    }
    room[..14].copy_from_slice(&bytes);
    plain(answer)
}

// What buffer n holds.
pub fn buffer(c: &Controller, n: u32, room: &mut [u8]) -> Result<u32, Wrong>
    ensures shown { buffer_shown c.now n room.old ≡ record { answer = said_number result; room = room.new } }
    ensures is_ok { is_ok result ≡ ltb n 16 }
{
    let row = c.rows.get(n as usize).ok_or(Wrong::Unknown)?;
    Ok(put(Answer::Ok, row.bytes, room))
}

// The buffer that the frame in a place waits for. A place is its index in the record's `held`. Functions and no methods: Places and Control
// are of crate rules.
fn waits_for(p: Places, place: usize) -> u8
    ensures { result ≡ waits_for p place }
{
    if place == 0 { p.first } else { p.second }
}

// The place, if a frame waits in it.
fn taken(c: Control, place: usize) -> Option<usize>
    ensures { result ≡ then_some (not (is_free c place)) place }
{
    (waits_for(c.places, place) < NONE).then_some(place)
}

// The place of the k-th frame that waits, 0 the oldest.
fn place(c: Control, k: u32) -> Result<usize, Wrong>
    ensures place { result ≡ place_by c k }
    ensures below { IfOk result (λ j. j < 2) }
{
    let first = usize::from(c.places.swapped);
    let second = 1 - first;
    let place = match k {
        0 => taken(c, first).or(taken(c, second)),
        1 => taken(c, first).and(taken(c, second)),
        _ => return Err(Wrong::Unknown),
    };
    place.ok_or(Wrong::NoFrame)
}

// The k-th frame that waits, 0 the oldest.
pub fn waiting(c: &Controller, k: u32, room: &mut [u8]) -> Result<u32, Wrong>
    ensures shown { waiting_shown c.now k room.old ≡ record { answer = said_number result; room = room.new } }
    ensures is_ok { is_ok result ≡ is_some (place_of c.now.control k) }
{
    let control = c.control;
    let place = place(control, k)?;
    let image = c.held[place];
    Ok(put(
        Answer::Waiting(waits_for(control.places, place)),
        image.bytes,
        room,
    ))
}
