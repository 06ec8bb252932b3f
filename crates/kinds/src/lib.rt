// Kinds of buffers, what is locked, the lawful layout.
#![tactic(auto)]

ghost use Rattle.std.specs.Prelude.{◌≡◌};
ghost use Rattle.std.specs.Option.{is_some, unwrap_or};
ghost use Rattle.masks.specs.Bits.{mask_of, number_in};
ghost use Rattle.rules.specs.Kinds.{is_locked, is_full_transmit, is_transmit, is_receive, is_oldest, fifo_holder, lockif, is_lawful, place_after};
ghost use Rattle.rules.specs.Bus.{examined};
ghost use Rattle.rules.specs.Writes.{cfg_after};

use rules::Control;
use rules::bits::{CFG, has};

// Buffer n is a transmit buffer.
pub fn is_transmit(c: Control, n: u8) -> bool
    ensures { result ≡ is_transmit c n }
{
    masks::test(c.buffers.cfg, n)
}

// Buffer n is a dedicated receive buffer.
pub fn is_receive(c: Control, n: u8) -> bool
    ensures { result ≡ is_receive c n }
{
    !is_transmit(c, n) && c.config.fsiz <= n
}

// The dedicated receive buffers.
pub fn receivers(c: Control) -> u16
    ensures { result ≡ mask_of (is_receive c) }
{
    !c.buffers.cfg & !masks::below(c.config.fsiz)
}

// How many dedicated receive buffers a lookup examines that finds buffer n: those up to n, that one included; all where it finds none.
pub fn examined(c: Control, n: Option<u8>) -> u8
    ensures { result ≡ examined c (number_in n) }
{
    let all = receivers(c);
    match n {
        Some(n) => masks::count(all & masks::up_to(n)),
        None => masks::count(all),
    }
}

// Buffer n is a full transmit buffer.
pub fn is_full_transmit(c: Control, n: u8) -> bool
    ensures { result ≡ is_full_transmit c n }
{
    is_transmit(c, n) && !masks::test(c.buffers.iflg, n)
}

// The full transmit buffers.
pub fn full(c: Control) -> u16
    ensures { result ≡ mask_of (is_full_transmit c) }
{
    c.buffers.cfg & !c.buffers.iflg
}

// The buffers that the last sync armed: only these are sent.
pub fn armed(c: Control) -> u16
    ensures { result ≡ c.buffers.armed }
{
    c.buffers.armed
}

// Buffer n is a holder, a contender, or the locked entry of the FIFO.
#[tactic(auto, unfolding(rules::specs::Kinds::is_locked))]
pub fn is_locked(c: Control, n: u8) -> bool
    ensures { result ≡ is_locked c n }
{
    c.receive.holds(n) || c.transmit.holds(n) || c.fifo.locked && n == c.fifo.oldest
}

// The locked buffers.
pub fn locked_mask(c: Control) -> u16
    ensures { result ≡ mask_of (is_locked c) }
{
    let entry = if c.fifo.locked {
        masks::one(c.fifo.oldest)
    } else {
        0
    };
    c.receive.locked_mask() | c.transmit.locked_mask() | entry
}

// Buffer n is the oldest entry of a non-empty FIFO.
#[tactic(auto, unfolding(rules::specs::Kinds::is_oldest))]
pub fn is_oldest(c: Control, n: u8) -> bool
    ensures { result ≡ is_oldest c n }
{
    0 < c.fifo.count && n == c.fifo.oldest
}

// The holder of the FIFO window.
#[tactic(auto, unfolding(masks::specs::Pick::pick, rules::specs::Kinds::fifo_holder))]
pub fn fifo_holder(c: Control) -> Option<u8>
    ensures number { unwrap_or result 16 ≡ fifo_holder c }
    ensures is_some { is_some result ≡ c.fifo.locked }
{
    if c.fifo.locked {
        Some(c.fifo.oldest)
    } else {
        None
    }
}

// LOCKIF: some kind has a contender.
#[tactic(auto, unfolding(rules::specs::Kinds::lockif))]
pub fn lockif(c: Control) -> bool
    ensures { result ≡ lockif c }
{
    c.receive.has_contender() || c.transmit.has_contender()
}

// All CFG 0 buffers come before all CFG 1 buffers, and FSIZ is at most the number of CFG 0 buffers: the CFG 1 buffers are
// those from the lowest of them on.
pub fn is_lawful(c: Control) -> bool
    ensures { result ≡ is_lawful c }
{
    let k = masks::lowest_of(c.buffers.cfg);
    c.buffers.cfg == !masks::below(k) && c.config.fsiz <= k
}

// The FIFO place after place n, 0 following FSIZ - 1.
#[tactic(auto, unfolding(masks::specs::Pick::pick, rules::specs::Kinds::place_after))]
pub fn place_after(fsiz: u8, n: u8) -> u8
    ensures { result ≡ place_after fsiz n }
{
    if n < fsiz.saturating_sub(1) { n + 1 } else { 0 }
}

// CFG of buffer n after the write of v to its control register: it changes in initialization only.
#[tactic(auto, unfolding(masks::specs::Pick::pick, rules::specs::Writes::cfg_after))]
pub fn cfg_after(c: Control, n: u8, v: u8) -> bool
    ensures { result ≡ cfg_after c n v }
{
    if c.mode.init {
        has(v, CFG)
    } else {
        is_transmit(c, n)
    }
}
