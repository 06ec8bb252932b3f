// The bits of the registers, each by its weight, under the manual's names.
ghost use Rattle.std.specs.Prelude.{◌≡◌};
ghost use Rattle.rules.specs.Registers.{has};

// $00
pub const INITRQ: u8 = 0x80;

pub const MASTER: u8 = 0x40;

pub const ALARM: u8 = 0x20;

pub const SLPAK: u8 = 0x10;

pub const SLPRQ: u8 = 0x08;

pub const WPULSE: u8 = 0x04;

pub const SSWAI: u8 = 0x02;

pub const INITAK: u8 = 0x01;

// $06, and the enables in $08
pub const RCVFIF: u8 = 0x80;

pub const RXIF: u8 = 0x40;

pub const SYNAIF: u8 = 0x20;

pub const SYNNIF: u8 = 0x10;

pub const SLMMIF: u8 = 0x08;

pub const XSYNIF: u8 = 0x02;

// $07, and the enables in $09
pub const TXIF: u8 = 0x80;

pub const OVRNIF: u8 = 0x40;

pub const ERRIF: u8 = 0x20;

pub const SYNEIF: u8 = 0x10;

pub const SYNLIF: u8 = 0x08;

pub const ILLPIF: u8 = 0x04;

pub const LOCKIF: u8 = 0x02;

pub const LOCKIE: u8 = 0x02;

pub const WAKEIF: u8 = 0x01;

// the flags of $06 and of $07 that a written 1 clears, those of $07 without SYNLIF, and the bits of $08
pub const RISR_EVENTS: u8 = SYNAIF | SYNNIF | SLMMIF | XSYNIF;

pub const GISR_EVENTS: u8 = GISR_OTHERS | SYNLIF;

pub const GISR_OTHERS: u8 = OVRNIF | ERRIF | SYNEIF | ILLPIF | WAKEIF;

pub const RIER_BITS: u8 = RCVFIF | RXIF | SYNAIF | SYNNIF | SLMMIF | XSYNIF;

// $10, $12
pub const BFEN: u8 = 0x80;

pub const TXBUFLOCK: u8 = 0x02;

pub const RXBUFLOCK: u8 = 0x01;

// $50 to $5F
pub const CFG: u8 = 0x80;

pub const IENA: u8 = 0x40;

pub const IFLG: u8 = 0x20;

pub const LOCK: u8 = 0x10;

pub const ABTRQ: u8 = 0x08;

pub const ABTAK: u8 = 0x04;

// the five interrupt lines
pub const LINE_FIFO: u8 = 0x10;

pub const LINE_RECEIVE: u8 = 0x08;

pub const LINE_SYNC: u8 = 0x04;

pub const LINE_XSYNC: u8 = 0x02;

pub const LINE_GENERAL: u8 = 0x01;

// The bit of that weight in v. Weight 0 is no bit. By division, so that its clause holds for every weight: one may be no power of two.
pub fn has(v: u8, bit: u8) -> bool
    ensures { result ≡ has v bit }
{
    bit != 0 && v / bit % 2 == 1
}
