// What the registers read.
ghost use Rattle.std.specs.Prelude.{◌≡◌};
ghost use Rattle.rules.specs.Reads.{mcr, buflock, bufctl, value_of};

use crate::flags::{flag, gisr, receive_vector, risr, transmit_vector};
use kinds::{is_locked, is_transmit};
use rules::bits::{
    ABTAK, ALARM, BFEN, CFG, IENA, IFLG, INITAK, INITRQ, LOCK, MASTER, RXBUFLOCK, SLPAK, SLPRQ,
    SSWAI, TXBUFLOCK, WPULSE,
};
use rules::{Control, Mode, Register};
use waiting::asleep;

// $00, SLPAK given. INITRQ and INITAK are one field: they are never apart.
#[tactic(auto, using(crate::proofs::FlagLaws::flag_beside), unfolding(rules::specs::Reads::mcr))]
pub fn mcr(slpak: bool, m: Mode) -> u8
    ensures { result ≡ mcr slpak m }
{
    flag(m.init, INITRQ)
        | flag(m.master, MASTER)
        | flag(m.alarm, ALARM)
        | flag(slpak, SLPAK)
        | flag(m.slprq, SLPRQ)
        | flag(m.wpulse, WPULSE)
        | flag(m.sswai, SSWAI)
        | flag(m.init, INITAK)
}

// $12: a transmit buffer is locked, a dedicated receive buffer is.
#[tactic(auto, using(crate::proofs::FlagLaws::flag_beside), unfolding(rules::specs::Reads::buflock))]
pub fn buflock(c: Control) -> u8
    ensures { result ≡ buflock c }
{
    let transmit = c.transmit.has_holder() || c.transmit.has_contender();
    let receive = c.receive.has_holder() || c.receive.has_contender();
    flag(transmit, TXBUFLOCK) | flag(receive, RXBUFLOCK)
}

// $50 to $5F: the control register of buffer n.
#[tactic(auto, using(crate::proofs::FlagLaws::flag_beside), unfolding(rules::specs::Reads::bufctl))]
pub fn bufctl(c: Control, n: u8) -> u8
    ensures { result ≡ bufctl c n }
{
    flag(is_transmit(c, n), CFG)
        | flag(masks::test(c.buffers.iena, n), IENA)
        | flag(masks::test(c.buffers.iflg, n), IFLG)
        | flag(is_locked(c, n), LOCK)
        | flag(masks::test(c.buffers.abtak, n), ABTAK)
}

// What a register reads. A window's bytes are none of the control state: it reads 0 here.
#[tactic(auto, unfolding(rules::specs::Reads::value_of))]
pub fn value_of(c: Control, register: Register) -> u8
    ensures { result ≡ value_of c register }
{
    match register {
        Register::Mcr => mcr(asleep(c), c.mode),
        Register::Fsizr => c.config.fsiz,
        Register::Tcr1 => c.config.tcr1,
        Register::Tcr2 => c.config.tcr2,
        Register::Tcr3 => c.config.tcr3,
        Register::Risr => risr(c),
        Register::Gisr => gisr(c),
        Register::Rier => c.config.rier,
        Register::Gier => c.config.gier,
        Register::Rivec => receive_vector(c),
        Register::Tivec => transmit_vector(c),
        Register::Fidac => c.config.accept.pattern,
        Register::Fidmr => c.config.accept.mask,
        Register::Pctlbf => flag(c.config.bfen, BFEN),
        Register::Buflock => buflock(c),
        Register::Fidrj => c.config.reject.pattern,
        Register::Fidrmr => c.config.reject.mask,
        Register::Bufctl(n) => bufctl(c, n),
        Register::Mvr
        | Register::TransmitWindow(_)
        | Register::ReceiveWindow(_)
        | Register::FifoWindow(_)
        | Register::Reserved => 0,
    }
}
