// Masks of the sixteen buffers: bit n stands for buffer n.
// Every function answers for every number: one from NONE on names no buffer.
#![tactic(auto)]

ghost use Rattle.std.specs.Prelude.{◌≡◌, ◌||◌, ◌&&◌, not, eqb, ltb, leb};
ghost use Rattle.masks.specs.Bits.{bit_of, mask_of, put_bit, lowest, highest, some_of, count_of};

// The number that stands for no buffer.
pub const NONE: u8 = 16;

// Buffer n is in the mask.
pub fn test(m: u16, n: u8) -> bool
    ensures { result ≡ bit_of m n }
{
    n < 16 && m >> n & 1 == 1
}

// The mask of buffer n alone.
pub fn one(n: u8) -> u16
    ensures { result ≡ mask_of (λ k. eqb k n) }
{
    if n < 16 { 1 << n } else { 0 }
}

// The mask of the buffers below n.
pub fn below(n: u8) -> u16
    ensures { result ≡ mask_of (λ k. ltb k n) }
{
    if n < 16 { (1 << n) - 1 } else { 0xFFFF }
}

// The mask of the buffers up to n, that one included.
pub fn up_to(n: u8) -> u16
    ensures { result ≡ mask_of (λ k. leb k n) }
{
    if n < 15 { (2 << n) - 1 } else { 0xFFFF }
}

// The mask with buffer n.
pub fn with(m: u16, n: u8) -> u16
    ensures { result ≡ mask_of (λ k. bit_of m k || eqb k n) }
{
    m | one(n)
}

// The mask without buffer n.
pub fn without(m: u16, n: u8) -> u16
    ensures { result ≡ mask_of (λ k. bit_of m k && not (eqb k n)) }
{
    m & !one(n)
}

// The mask with buffer n if t, else without.
pub fn put(m: u16, n: u8, t: bool) -> u16
    ensures { result ≡ put_bit m n t }
{
    if t { with(m, n) } else { without(m, n) }
}

// Some buffer is in the mask.
pub fn any(m: u16) -> bool
    ensures { result ≡ some_of (bit_of m) 16 }
{
    m != 0
}

// The lowest buffer of the mask, or NONE. Its number is the count of the zeros below its bit; an empty mask has sixteen.
// No Option, here and below: $0A and $0B read $10 where there is none.
pub fn lowest_of(m: u16) -> u8
    ensures { result ≡ lowest (bit_of m) 0 16 }
{
    m.trailing_zeros() as u8
}

// The highest buffer of the mask, or NONE. Its number and the count of the zeros above its bit make 15.
pub fn highest_of(m: u16) -> u8
    ensures { result ≡ highest (bit_of m) 16 }
{
    if m == 0 {
        NONE
    } else {
        (15 - m.leading_zeros()) as u8
    }
}

// How many buffers are in the mask.
pub fn count(m: u16) -> u8
    ensures { result ≡ count_of (bit_of m) 16 }
{
    m.count_ones() as u8
}
