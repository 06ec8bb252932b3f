// The controller's control state, by concern: everything but the buffers' bytes.
#![tactic(auto)]

pub mod bits;

ghost use Rattle.std.specs.Prelude.{◌≡◌};
ghost use Rattle.rules.specs.declared.Answer.TheVariants.{Refused};
ghost use Rattle.rules.specs.Registers.{register_at};
ghost use Rattle.rules.specs.Refusals.{refusal_number};

use filter::Filter;
use locks::Locks;

// The two kinds of sync pulse.
#[derive(Clone, Copy)]
pub enum SyncKind {
    Normal,
    Alarm,
}

// The faults that the bus can show.
#[derive(Clone, Copy)]
pub enum Fault {
    Early,
    Lost,
    Illegal,
    Mismatch,
}

// The registers behind the addresses $00 to $5F, by the manual's names without their BF.
// A window's place is 0 for the identifier, 1 for the length, 2 to 13 for data 0 to 11.
#[derive(Clone, Copy)]
pub enum Register {
    Mcr,
    Fsizr,
    Tcr1,
    Tcr2,
    Tcr3,
    Risr,
    Gisr,
    Rier,
    Gier,
    Rivec,
    Tivec,
    Fidac,
    Fidmr,
    Mvr,
    Pctlbf,
    Buflock,
    Fidrj,
    Fidrmr,
    TransmitWindow(u8),
    ReceiveWindow(u8),
    FifoWindow(u8),
    Bufctl(u8),
    Reserved,
}

// The register behind an address.
impl From<u8> for Register {
    ghost from_gives = { λ a r. r ≡ register_at a };

    #[tactic(auto, unfolding(crate::specs::Registers::register_at, crate::specs::Registers::low_map, masks::specs::Pick::pick))]
    fn from(a: u8) -> Register {
        match a {
            0x00 => Register::Mcr,
            0x01 => Register::Fsizr,
            0x02 => Register::Tcr1,
            0x03 => Register::Tcr2,
            0x04 => Register::Tcr3,
            0x06 => Register::Risr,
            0x07 => Register::Gisr,
            0x08 => Register::Rier,
            0x09 => Register::Gier,
            0x0A => Register::Rivec,
            0x0B => Register::Tivec,
            0x0C => Register::Fidac,
            0x0D => Register::Fidmr,
            0x0E => Register::Mvr,
            0x10 => Register::Pctlbf,
            0x12 => Register::Buflock,
            0x14 => Register::Fidrj,
            0x15 => Register::Fidrmr,
            0x20..=0x2D => Register::TransmitWindow(a - 0x20),
            0x30..=0x3D => Register::ReceiveWindow(a - 0x30),
            0x40..=0x4D => Register::FifoWindow(a - 0x40),
            0x50..=0x5F => Register::Bufctl(a - 0x50),
            _ => Register::Reserved,
        }
    }
}

// Why a call is refused, in the order of the refusals' numbers.
#[derive(Clone, Copy, Debug, PartialEq, Eq)]
pub enum Refusal {
    NoRegister,
    Asleep,
    ReadOnly,
    OnlyInInit,
    NoHolder,
    FsizAbove16,
    KindOfLocked,
    UnlawfulLayout,
    NotOldest,
    NoLockLeft,
    FrameSize,
    RoomSize,
}

// The refusal's number.
impl From<Refusal> for u8 {
    ghost from_gives = { λ r k. k ≡ refusal_number r };

    fn from(r: Refusal) -> u8 {
        match r {
            Refusal::NoRegister => 1,
            Refusal::Asleep => 2,
            Refusal::ReadOnly => 3,
            Refusal::OnlyInInit => 4,
            Refusal::NoHolder => 5,
            Refusal::FsizAbove16 => 6,
            Refusal::KindOfLocked => 7,
            Refusal::UnlawfulLayout => 8,
            Refusal::NotOldest => 9,
            Refusal::NoLockLeft => 10,
            Refusal::FrameSize => 11,
            Refusal::RoomSize => 12,
        }
    }
}

// What a call or an event is answered.
#[derive(Clone, Copy)]
pub enum Answer {
    Ok,
    Value(u8),
    Stored(u8),
    Queued(u8),
    HeldOff(u8),
    // so many bytes of the room are the frame
    Sent(u8),
    Pulse(SyncKind),
    // the refusal's number: who writes an answer takes any
    Refused(u8),
    Overrun,
    Unmatched,
    BadFrame,
    Ignored,
    Woke,
    NotSent,
    // the frame waits for the buffer, which is locked
    Waiting(u8),
}

// The answer to a call that is refused.
impl From<Refusal> for Answer {
    ghost from_gives = { λ r a. a ≡ Refused (refusal_number r) };

    fn from(r: Refusal) -> Answer {
        Answer::Refused(u8::from(r))
    }
}

// $00, synchronization, and the largest identifier on the bus since the last sync.
#[repr(C)]
#[derive(Clone, Copy)]
pub struct Mode {
    // INITRQ and INITAK, which are never apart
    pub init: bool,
    pub master: bool,
    pub alarm: bool,
    // SLPAK is no field: it is SLPRQ while no frame waits
    pub slprq: bool,
    pub wpulse: bool,
    pub sswai: bool,
    pub synced: bool,
    pub last: u8,
}

// What the application sets up: FSIZ, the three timing registers, the interrupt enables, the FIFO's filters, BFEN.
#[repr(C)]
#[derive(Clone, Copy)]
pub struct Config {
    pub fsiz: u8,
    pub tcr1: u8,
    pub tcr2: u8,
    pub tcr3: u8,
    pub rier: u8,
    pub gier: u8,
    pub accept: Filter,
    pub reject: Filter,
    pub bfen: bool,
}

// The event flags of $06 and $07, at their bits, and a SYNLIF clear that waits for the next sync.
#[repr(C)]
#[derive(Clone, Copy)]
pub struct Events {
    pub risr: u8,
    pub gisr: u8,
    pub clearing: bool,
}

// The FIFO: its oldest entry's place, the place for the next frame, the number of entries, and its lock.
#[repr(C)]
#[derive(Clone, Copy)]
pub struct Fifo {
    pub oldest: u8,
    pub next: u8,
    pub count: u8,
    pub locked: bool,
}

// The buffers' control bits, one mask a bit: bit n stands for buffer n. Armed: sent at its slot in this cycle.
#[repr(C)]
#[derive(Clone, Copy)]
pub struct Buffers {
    pub cfg: u16,
    pub iena: u16,
    pub iflg: u16,
    pub abtak: u16,
    pub armed: u16,
}

// The two waiting places: for which buffer the frame in each waits, 16 in a free one, as the C record has it. Swapped: the frame in the
// second place came before the one in the first.
#[repr(C)]
#[derive(Clone, Copy)]
pub struct Places {
    pub first: u8,
    pub second: u8,
    pub swapped: bool,
}

// The control state.
#[repr(C)]
#[derive(Clone, Copy)]
pub struct Control {
    pub mode: Mode,
    pub config: Config,
    pub events: Events,
    pub fifo: Fifo,
    pub receive: Locks,
    pub transmit: Locks,
    pub places: Places,
    pub buffers: Buffers,
}

// Where a frame is stored: in a buffer, or in one of the two waiting places.
#[derive(Clone, Copy)]
pub enum Target {
    Buffer(u8),
    Place(u8),
}

// What the rules make of a bus step: an answer alone, a frame to store with its answer, or a buffer's frame to send.
#[derive(Clone, Copy)]
pub enum Verdict {
    Say(Answer),
    Store(Target, Answer),
    Send(u8),
}

// The next control state, and the verdict.
#[derive(Clone, Copy)]
pub struct Ruling {
    pub next: Control,
    pub verdict: Verdict,
}
