// The locks of one kind of buffer. A number from NONE on names no buffer.
#![tactic(auto)]

ghost use Rattle.std.specs.Prelude.{◌≡◌};
ghost use Rattle.masks.specs.Bits.{mask_of};
ghost use Rattle.locks.specs.Pair.{has_holder, has_contender, in_pair, is_full, take_lock, release_lock};

use masks::NONE;

// Holder and contender, by buffer number.
#[repr(C)]
#[derive(Clone, Copy)]
pub struct Locks {
    pub holder: u8,
    pub contender: u8,
}

impl Locks {
    // The kind has a holder.
    pub fn has_holder(self) -> bool
        ensures { result ≡ has_holder self }
    {
        self.holder < NONE
    }

    // The kind has a contender.
    pub fn has_contender(self) -> bool
        ensures { result ≡ has_contender self }
    {
        self.contender < NONE
    }

    // The kind has holder and contender: no further lock is taken.
    #[tactic(auto, unfolding(crate::specs::Pair::is_full))]
    pub fn is_full(self) -> bool
        ensures { result ≡ is_full self }
    {
        self.holder < NONE && self.contender < NONE
    }

    // Buffer n is locked: it is holder or contender. The numbers are compared as they stand, so NONE is one of the two
    // wherever one is missing.
    #[tactic(auto, unfolding(crate::specs::Pair::in_pair))]
    pub fn holds(self, n: u8) -> bool
        ensures { result ≡ in_pair self n }
    {
        n == self.holder || n == self.contender
    }

    // The mask of the locked buffers, at most two; 0 where there is none. Most of the time there is none: asking first saves two
    // shifts at each sync.
    pub fn locked_mask(self) -> u16
        ensures { result ≡ mask_of (in_pair self) }
    {
        if NONE <= self.holder && NONE <= self.contender {
            return 0;
        }
        masks::one(self.holder) | masks::one(self.contender)
    }

    // The locks after buffer n is locked: it is the holder where there is none, else the contender, in place of one that was
    // there. Ask `is_full` first.
    #[tactic(auto, unfolding(crate::specs::Pair::take_lock, masks::specs::Pick::pick))]
    pub fn take(self, n: u8) -> Locks
        ensures { result ≡ take_lock self n }
    {
        let mut next = self;
        if self.holder < NONE {
            next.contender = n;
        } else {
            next.holder = n;
        }
        next
    }

    // The locks after buffer n is released: a released holder's contender becomes holder. The same locks where n is
    // neither of the two.
    #[tactic(auto, unfolding(crate::specs::Pair::release_lock, masks::specs::Pick::pick))]
    pub fn release(self, n: u8) -> Locks
        ensures { result ≡ release_lock self n }
    {
        let mut next = self;
        if n == self.holder {
            next.holder = self.contender;
            next.contender = NONE;
        } else if n == self.contender {
            next.contender = NONE;
        }
        next
    }
}
