// The two places in which frames wait for a locked buffer, and the sleep that waits for them. Functions and no methods: the types are of
// crate rules, and what is promised here is not.
#![tactic(auto, unfolding(masks::specs::Pick::pick))]

ghost use Rattle.std.specs.Prelude.{◌≡◌, eqb};
ghost use Rattle.masks.specs.Pick.{pick};
ghost use Rattle.locks.specs.Pair.{none};
ghost use Rattle.rules.specs.Waiting.{asleep, occupied};
ghost use Rattle.waiting.specs.Code.{is_awaited, newest_of, freed_for, deliver_to};

use masks::NONE;
use rules::{Control, Places};

// SLPAK: SLPRQ, and no frame waits.
#[tactic(auto, unfolding(rules::specs::Waiting::asleep, masks::specs::Pick::pick))]
pub fn asleep(c: Control) -> bool
    ensures { result ≡ asleep c }
{
    let p = c.places;
    c.mode.slprq && NONE <= p.first && NONE <= p.second
}

// Place k, the first or the second, taken by a frame for buffer n, which is the newest.
pub fn taken(p: Places, k: u8, n: u8) -> Places
    ensures { result ≡ occupied p k n }
{
    match k {
        0 => Places {
            first: n,
            swapped: true,
            ..p
        },
        _ => Places {
            second: n,
            swapped: false,
            ..p
        },
    }
}

// A frame waits for buffer n.
#[tactic(auto, unfolding(crate::specs::Code::is_awaited, masks::specs::Pick::pick))]
pub fn is_awaited(p: Places, n: u8) -> bool
    ensures { result ≡ is_awaited p n }
{
    p.first == n || p.second == n
}

// The place of the newest frame that waits for buffer n; the second where none does.
#[tactic(auto, unfolding(crate::specs::Code::newest_of, masks::specs::Pick::pick))]
pub fn newest(p: Places, n: u8) -> usize
    ensures { result ≡ newest_of p n }
{
    if p.first == n && (p.swapped || p.second != n) {
        0
    } else {
        1
    }
}

// What stands in a place that held x, once no frame waits for buffer n.
fn without(x: u8, n: u8) -> u8
    ensures { result ≡ pick (eqb x n) none x }
{
    if x == n { NONE } else { x }
}

// The places without the frames for buffer n.
#[tactic(auto, unfolding(crate::specs::Code::freed_for, masks::specs::Pick::pick))]
fn freed(p: Places, n: u8) -> Places
    ensures { result ≡ freed_for p n }
{
    Places {
        first: without(p.first, n),
        second: without(p.second, n),
        ..p
    }
}

// The frames that wait for buffer n delivered to it, at least one: IFLG is set, and their places are free. Of two the newer is left in
// the buffer.
#[tactic(auto, unfolding(crate::specs::Code::deliver_to, masks::specs::Pick::pick))]
pub fn deliver(c: Control, n: u8) -> Control
    ensures { result ≡ deliver_to c n }
{
    let mut next = c;
    next.places = freed(c.places, n);
    next.buffers.iflg = masks::put(c.buffers.iflg, n, true);
    next
}
