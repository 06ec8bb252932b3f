// The FIFO's identifier filters.
#![tactic(auto)]

ghost use Rattle.std.specs.Prelude.{◌≡◌};
ghost use Rattle.filter.specs.Match.{matches, rejects};

// An identifier pattern and its mask: acceptance is $0C and $0D, rejection $14 and $15.
#[repr(C)]
#[derive(Clone, Copy)]
pub struct Filter {
    pub pattern: u8,
    pub mask: u8,
}

impl Filter {
    // Whether the filter matches an identifier: the two agree wherever the mask bit is 0.
    // Mask 0 matches the pattern alone, mask $FF every identifier.
    #[tactic(auto, using(crate::proofs::Laws::matches_test))]
    pub fn matches(self, ident: u8) -> bool
        ensures { result ≡ matches self ident }
    {
        (ident ^ self.pattern) & !self.mask == 0
    }

    // Whether the filter, as the rejection pair, rejects an identifier: mask $FF rejects none, though it matches all (W2).
    #[tactic(auto, unfolding(crate::specs::Match::rejects))]
    pub fn rejects(self, ident: u8) -> bool
        ensures { result ≡ rejects self ident }
    {
        self.mask != 0xFF && self.matches(ident)
    }
}
