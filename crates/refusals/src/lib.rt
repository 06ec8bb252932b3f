// The refusals of register calls: each as a test, and the first that applies. Those of the control registers, which test code writes
// most, are judged in one pass.
#![tactic(auto)]

ghost use Rattle.std.specs.Prelude.{ℕ, ◌+◌, ◌%◌, ◌≤◌, ◌<◌, ◌&&◌, ◌≡◌, eqb};
ghost use Rattle.masks.specs.Bits.{some_of};
ghost use Rattle.masks.specs.Pick.{pick};
ghost use Rattle.rules.specs.Refusals.{refuses2, refuses3, only_in_init, refuses4, refuses5, refuses6, moved_by_fsiz, refuses8, read_refusal, write_refusal, refusal_number, number_of};
ghost use Rattle.refusals.specs.Code.{lock_refusal, control_refusal, low_refusal, address_refusal};

use kinds::{cfg_after, is_lawful, is_locked, is_oldest, is_transmit, locked_mask};
use masks::NONE;
use rules::bits::{INITRQ, LOCK, has};
use rules::{Control, Refusal};
use waiting::asleep;

// Err with that refusal where the test holds.
#[tactic(auto, unfolding(masks::specs::Pick::pick))]
fn refuse_if(test: bool, r: Refusal) -> Result<(), Refusal>
    ensures { number_of result ≡ pick test (refusal_number r) 0 }
{
    if test { Err(r) } else { Ok(()) }
}

// 2: asleep, any register but $00.
#[tactic(auto, unfolding(rules::specs::Refusals::refuses2))]
fn refuses2(c: Control, a: u8) -> bool
    ensures { result ≡ refuses2 c a }
{
    asleep(c) && a != 0
}

// 3: a register that only reads.
#[tactic(auto, unfolding(rules::specs::Refusals::refuses3))]
fn refuses3(a: u8) -> bool
    ensures { result ≡ refuses3 a }
{
    matches!(a, 0x0A | 0x0B | 0x0E | 0x12 | 0x40..=0x4D)
}

#[tactic(auto, unfolding(rules::specs::Refusals::only_in_init))]
fn only_in_init(a: u8) -> bool
    ensures { result ≡ only_in_init a }
{
    matches!(
        a,
        0x01..=0x04 | 0x0C | 0x0D | 0x14 | 0x15 | 0x30..=0x3D
    )
}

// 4: a register that is written in initialization only.
#[tactic(auto, unfolding(rules::specs::Refusals::refuses4))]
fn refuses4(c: Control, a: u8) -> bool
    ensures { result ≡ refuses4 c a }
{
    only_in_init(a) && !c.mode.init
}

// 5: a window with no holder.
#[tactic(auto, unfolding(rules::specs::Refusals::refuses5))]
fn refuses5(c: Control, a: u8) -> bool
    ensures { result ≡ refuses5 c a }
{
    match a {
        0x20..=0x2D => !c.transmit.has_holder(),
        0x30..=0x3D => !c.receive.has_holder(),
        _ => false,
    }
}

// 6: FSIZ above 16.
#[tactic(auto, unfolding(rules::specs::Refusals::refuses6))]
fn refuses6(a: u8, v: u8) -> bool
    ensures { result ≡ refuses6 a v }
{
    a == 0x01 && 16 < v % 32
}

// A locked buffer changes its kind where FSIZ becomes s.
fn moved_by_fsiz(c: Control, s: u8) -> bool
    ensures { result ≡ some_of (moved_by_fsiz c s) 16 }
{
    let now = masks::below(c.config.fsiz);
    let then = masks::below(s);
    masks::any(locked_mask(c) & !c.buffers.cfg & (now & !then | then & !now))
}

// 7, by FSIZ: the kind of a locked buffer changes.
fn refuses7(c: Control, a: u8, v: u8) -> bool
    ensures { result ≡ (eqb a 0x01 && some_of (moved_by_fsiz c (v % 32)) 16) }
{
    a == 0x01 && moved_by_fsiz(c, v % 32)
}

// 8: leaving initialization with an unlawful layout.
#[tactic(auto, unfolding(rules::specs::Refusals::refuses8))]
fn refuses8(c: Control, a: u8, v: u8) -> bool
    ensures { result ≡ refuses8 c a v }
{
    a == 0x00 && c.mode.init && !has(v, INITRQ) && !is_lawful(c)
}

// Where buffer n, which is not locked, is locked, and its CFG is then cfg: 9 for a FIFO buffer that isn't the oldest entry, 10
// where its kind has holder and contender.
#[tactic(auto, unfolding(masks::specs::Pick::pick, crate::specs::Code::lock_refusal))]
fn lock_refusal(c: Control, n: u8, cfg: bool) -> Result<(), Refusal>
    ensures { number_of result ≡ lock_refusal c n cfg }
{
    if cfg {
        refuse_if(c.transmit.is_full(), Refusal::NoLockLeft)
    } else if n < c.config.fsiz {
        refuse_if(!is_oldest(c, n), Refusal::NotOldest)
    } else {
        refuse_if(c.receive.is_full(), Refusal::NoLockLeft)
    }
}

// The refusals that a write of buffer n's control register can have in an awake module: 7 if it is locked and its kind
// changes, 9 or 10 if it is not and is to be locked.
#[tactic(auto, unfolding(masks::specs::Pick::pick, crate::specs::Code::control_refusal))]
fn control_refusal(c: Control, n: u8, v: u8) -> Result<(), Refusal>
    ensures { number_of result ≡ control_refusal c n v }
{
    let cfg = cfg_after(c, n, v);
    if is_locked(c, n) {
        refuse_if(cfg != is_transmit(c, n), Refusal::KindOfLocked)
    } else if has(v, LOCK) {
        lock_refusal(c, n, cfg)
    } else {
        Ok(())
    }
}

// Whether a register read is refused.
#[tactic(auto, using(crate::proofs::RefusalLaws::orders), unfolding(masks::specs::Pick::pick))]
pub fn read_refusal(c: Control, a: u8) -> Result<(), Refusal>
    ensures { number_of result ≡ read_refusal c a }
{
    refuse_if(0x5F < a, Refusal::NoRegister)?;
    refuse_if(refuses2(c, a), Refusal::Asleep)
}

// Refusals 2 to 5 of a write below $50, for which what is written doesn't count. From $20 to $4F, at a window's place or a reserved
// address, there are no others.
#[tactic(auto, using(crate::proofs::RefusalLaws::orders), unfolding(masks::specs::Pick::pick, crate::specs::Code::address_refusal))]
pub fn address_refusal(c: Control, a: u8) -> Result<(), Refusal>
    ensures early { number_of result ≡ address_refusal c a }
    ensures window { (v : ℕ) → 0x20 ≤ a → a < 0x50 → number_of result ≡ write_refusal c a v }
{
    refuse_if(refuses2(c, a), Refusal::Asleep)?;
    refuse_if(refuses3(a), Refusal::ReadOnly)?;
    refuse_if(refuses4(c, a), Refusal::OnlyInInit)?;
    refuse_if(refuses5(c, a), Refusal::NoHolder)
}

// Refusals 6 to 8 of a write below $50.
#[tactic(auto, unfolding(masks::specs::Pick::pick, crate::specs::Code::low_refusal))]
fn low_refusal(c: Control, a: u8, v: u8) -> Result<(), Refusal>
    ensures { number_of result ≡ low_refusal c a v }
{
    refuse_if(refuses6(a, v), Refusal::FsizAbove16)?;
    refuse_if(refuses7(c, a, v), Refusal::KindOfLocked)?;
    refuse_if(refuses8(c, a, v), Refusal::UnlawfulLayout)
}

// Whether a write of buffer n's control register is refused. From NONE on there is no such register: 1.
#[tactic(auto, using(crate::proofs::RefusalLaws::orders), unfolding(masks::specs::Pick::pick))]
pub fn control_write_refusal(c: Control, n: u8, v: u8) -> Result<(), Refusal>
    ensures { number_of result ≡ write_refusal c (0x50 + n) v }
{
    refuse_if(NONE <= n, Refusal::NoRegister)?;
    refuse_if(asleep(c), Refusal::Asleep)?;
    control_refusal(c, n, v)
}

// Whether a register write is refused.
#[tactic(auto, using(crate::proofs::RefusalLaws::orders), unfolding(masks::specs::Pick::pick, crate::specs::Code::address_refusal))]
pub fn write_refusal(c: Control, a: u8, v: u8) -> Result<(), Refusal>
    ensures { number_of result ≡ write_refusal c a v }
{
    if 0x50 <= a {
        return control_write_refusal(c, a - 0x50, v);
    }
    address_refusal(c, a)?;
    low_refusal(c, a, v)
}
