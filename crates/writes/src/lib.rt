// Register writes that are not refused.
#![tactic(auto)]

mod bufctl;
mod events;
mod locking;

ghost use Rattle.std.specs.Prelude.{◌≡◌};
ghost use Rattle.rules.specs.Writes.{write_gier};
ghost use Rattle.writes.specs.Code.{written_low};

pub use crate::bufctl::written_control;
use crate::events::{write_gisr, write_risr};
use modes::write_mcr;
use rules::bits::{BFEN, LOCKIE, RIER_BITS, has};
use rules::{Control, Register};

// $09 as written: LOCKIE changes in initialization only.
#[tactic(auto, unfolding(masks::specs::Pick::pick, rules::specs::Writes::write_gier))]
pub fn write_gier(init: bool, old: u8, v: u8) -> u8
    ensures { result ≡ write_gier init old v }
{
    if init { v } else { v & !LOCKIE | old & LOCKIE }
}

// A write of a register below $50; a window's bytes are none of the control state. The control registers, which test code writes
// most, have a path of their own.
#[tactic(auto, unfolding(crate::specs::Code::written_low, rules::specs::Writes::written))]
pub fn written_low(c: Control, register: Register, v: u8) -> Control
    ensures { result ≡ written_low c register v }
{
    let mut next = c;
    match register {
        Register::Mcr => next = write_mcr(c, v),
        Register::Fsizr => next.config.fsiz = v % 32,
        Register::Tcr1 => next.config.tcr1 = v,
        Register::Tcr2 => next.config.tcr2 = v,
        Register::Tcr3 => next.config.tcr3 = v,
        Register::Risr => next.events = write_risr(c.events, v),
        Register::Gisr => next.events = write_gisr(c.events, c.mode.synced, v),
        Register::Rier => next.config.rier = v & RIER_BITS,
        Register::Gier => next.config.gier = write_gier(c.mode.init, c.config.gier, v),
        Register::Fidac => next.config.accept.pattern = v,
        Register::Fidmr => next.config.accept.mask = v,
        Register::Pctlbf => next.config.bfen = has(v, BFEN),
        Register::Fidrj => next.config.reject.pattern = v,
        Register::Fidrmr => next.config.reject.mask = v,
        Register::Rivec
        | Register::Tivec
        | Register::Mvr
        | Register::Buflock
        | Register::TransmitWindow(_)
        | Register::ReceiveWindow(_)
        | Register::FifoWindow(_)
        | Register::Bufctl(_)
        | Register::Reserved => {}
    }
    next
}
