// The call that a kind and its two numbers stand for. SyncKind and Fault are of another crate, which alone may write a TryFrom for them: here
// they are made by functions.
#![tactic(auto, unfolding(crate::specs::Calls::byte_of, crate::specs::Calls::address_of, crate::specs::Calls::sync_of, crate::specs::Calls::verdict_of, crate::specs::Calls::fault_of, crate::specs::Calls::call_of, crate::specs::Code::sized_of, crate::specs::Code::sync_kind_of, crate::specs::Code::fault_kind_of, crate::specs::Code::meant_of, masks::specs::Pick::pick))]

ghost use Rattle.std.specs.Prelude.{◌≡◌};
ghost use Rattle.encoding.specs.Calls.{byte_of, address_of, sync_of, verdict_of, fault_of, call_of};
ghost use Rattle.encoding.specs.Code.{sized_of, asked_of, sync_kind_of, fault_kind_of, meant_of};

use crate::{SIZE, Wrong};
use controller::Call;
use rules::{Fault, SyncKind};

fn byte(n: u32) -> Option<u8>
    ensures { result ≡ byte_of n }
{
    u8::try_from(n).ok()
}

// An address above 255 is refused as 255 is.
fn address(first: u32) -> u8
    ensures { result ≡ address_of first }
{
    byte(first).unwrap_or(u8::MAX)
}

fn sync_kind(first: u32) -> Option<SyncKind>
    ensures { result ≡ sync_of first }
{
    match first {
        0 => Some(SyncKind::Normal),
        1 => Some(SyncKind::Alarm),
        _ => None,
    }
}

// A bool, as Call::Frame takes it: no type of its own to convert to.
fn verdict(first: u32) -> Option<bool>
    ensures { result ≡ verdict_of first }
{
    match first {
        0 => Some(false),
        1 => Some(true),
        _ => None,
    }
}

fn fault_kind(first: u32) -> Option<Fault>
    ensures { result ≡ fault_of first }
{
    match first {
        0 => Some(Fault::Early),
        1 => Some(Fault::Lost),
        2 => Some(Fault::Illegal),
        3 => Some(Fault::Mismatch),
        _ => None,
    }
}

// Numbers that the kind doesn't use are not looked at.
fn known(kind: u32, first: u32, second: u32) -> Option<Call>
    ensures { result ≡ call_of kind first second }
{
    match kind {
        0 => Some(Call::Reset),
        1 => Some(Call::Read(address(first))),
        2 => Some(Call::Write(address(first), byte(second)?)),
        3 => Some(Call::Sync(sync_kind(first)?)),
        4 => Some(Call::SyncDue),
        5 => Some(Call::Slot(byte(first)?)),
        6 => Some(Call::Frame(verdict(first)?)),
        7 => Some(Call::Fault(fault_kind(first)?)),
        8 => Some(Call::Timeout),
        _ => None,
    }
}

// The caller's record has the right size.
pub fn sized(size: usize) -> Result<(), Wrong>
    ensures { result ≡ sized_of size }
{
    if size == SIZE {
        Ok(())
    } else {
        Err(Wrong::Size)
    }
}

// The call of a kind and its two numbers.
pub fn asked(kind: u32, first: u32, second: u32) -> Result<Call, Wrong>
    ensures { result ≡ asked_of kind first second }
{
    known(kind, first, second).ok_or(Wrong::Unknown)
}

fn sync_kind_meant(first: u32) -> SyncKind
    ensures { result ≡ sync_kind_of first }
{
    if first == 0 {
        SyncKind::Normal
    } else {
        SyncKind::Alarm
    }
}

fn fault_kind_meant(first: u32) -> Fault
    ensures { result ≡ fault_kind_of first }
{
    match first {
        0 => Fault::Early,
        1 => Fault::Lost,
        2 => Fault::Illegal,
        _ => Fault::Mismatch,
    }
}

// The call of a kind, for who has judged its numbers already. Nothing is judged here, so numbers that stand for no call have one too.
pub fn meant(kind: u32, first: u32, second: u32) -> Call
    ensures { result ≡ meant_of kind first second }
{
    match kind {
        0 => Call::Reset,
        1 => Call::Read(address(first)),
        2 => Call::Write(address(first), (second % 256) as u8),
        3 => Call::Sync(sync_kind_meant(first)),
        4 => Call::SyncDue,
        5 => Call::Slot((first % 256) as u8),
        6 => Call::Frame(first != 0),
        7 => Call::Fault(fault_kind_meant(first)),
        _ => Call::Timeout,
    }
}
