// Flags, vectors and the five interrupt lines.
ghost use Rattle.std.specs.Prelude.{◌≡◌};
ghost use Rattle.masks.specs.Bits.{mask_of};
ghost use Rattle.rules.specs.Registers.{with_flag};
ghost use Rattle.rules.specs.Flags.{receive_pending, transmit_pending, receive_vector, transmit_vector, rxif, txif, risr, gisr, raises, lines_of};

use kinds::{lockif, receivers};
use rules::Control;
use rules::bits::{
    LINE_FIFO, LINE_GENERAL, LINE_RECEIVE, LINE_SYNC, LINE_XSYNC, LOCKIF, RCVFIF, RXIF, SLMMIF,
    SYNAIF, SYNNIF, TXIF, XSYNIF,
};

// The bit b if t, else no bit.
#[tactic(auto, unfolding(rules::specs::Registers::with_flag, masks::specs::Pick::pick))]
pub fn flag(t: bool, b: u8) -> u8
    ensures { result ≡ with_flag t b 0 }
{
    if t { b } else { 0 }
}

// Some flag of m stands in the flags f with its enable in e.
#[tactic(auto, unfolding(rules::specs::Flags::raises))]
pub fn raises(f: u8, e: u8, m: u8) -> bool
    ensures { result ≡ raises f e m }
{
    f & e & m != 0
}

// The receive buffers with IFLG and IENA.
pub fn receive_pending(c: Control) -> u16
    ensures { result ≡ mask_of (receive_pending c) }
{
    receivers(c) & c.buffers.iflg & c.buffers.iena
}

// The transmit buffers with IFLG and IENA.
pub fn transmit_pending(c: Control) -> u16
    ensures { result ≡ mask_of (transmit_pending c) }
{
    c.buffers.cfg & c.buffers.iflg & c.buffers.iena
}

// $0A: the lowest pending receive buffer, or NONE, which reads $10.
#[tactic(auto, using(crate::proofs::FlagLaws::of_masks), unfolding(rules::specs::Flags::receive_vector))]
pub fn receive_vector(c: Control) -> u8
    ensures { result ≡ receive_vector c }
{
    masks::lowest_of(receive_pending(c))
}

// $0B: the highest pending transmit buffer, or NONE.
#[tactic(auto, using(crate::proofs::FlagLaws::of_masks), unfolding(rules::specs::Flags::transmit_vector))]
pub fn transmit_vector(c: Control) -> u8
    ensures { result ≡ transmit_vector c }
{
    masks::highest_of(transmit_pending(c))
}

#[tactic(auto, using(crate::proofs::FlagLaws::of_masks), unfolding(rules::specs::Flags::rxif))]
pub fn rxif(c: Control) -> bool
    ensures { result ≡ rxif c }
{
    masks::any(receive_pending(c))
}

#[tactic(auto, using(crate::proofs::FlagLaws::of_masks), unfolding(rules::specs::Flags::txif))]
pub fn txif(c: Control) -> bool
    ensures { result ≡ txif c }
{
    masks::any(transmit_pending(c))
}

// $06: the event flags with RXIF and RCVFIF.
#[tactic(auto, using(crate::proofs::FlagLaws::flag_beside), unfolding(rules::specs::Flags::risr))]
pub fn risr(c: Control) -> u8
    ensures { result ≡ risr c }
{
    c.events.risr | flag(0 < c.fifo.count, RCVFIF) | flag(rxif(c), RXIF)
}

// $07: the event flags with LOCKIF and TXIF.
#[tactic(auto, using(crate::proofs::FlagLaws::flag_beside), unfolding(rules::specs::Flags::gisr))]
pub fn gisr(c: Control) -> u8
    ensures { result ≡ gisr c }
{
    c.events.gisr | flag(txif(c), TXIF) | flag(lockif(c), LOCKIF)
}

// The five interrupt lines. Each is some flag with its enable: the general line one of $07, or SLMMIF.
#[tactic(auto, using(crate::proofs::FlagLaws::flag_beside), unfolding(rules::specs::Flags::lines_of))]
pub fn lines(c: Control) -> u8
    ensures { result ≡ lines_of c }
{
    let f = risr(c);
    let e = c.config.rier;
    let general = raises(gisr(c), c.config.gier, 0xFF) || raises(f, e, SLMMIF);
    flag(general, LINE_GENERAL)
        | flag(raises(f, e, XSYNIF), LINE_XSYNC)
        | flag(raises(f, e, SYNAIF + SYNNIF), LINE_SYNC)
        | flag(raises(f, e, RXIF), LINE_RECEIVE)
        | flag(raises(f, e, RCVFIF), LINE_FIFO)
}
