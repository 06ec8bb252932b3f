// The searches over the sixteen buffers' contents: which buffer carries an identifier, and which have one at all.
// Every function answers for every mask and every identifier.
// The sixteen identifiers are taken out first, in a loop that the compiler unrolls: it then reads these sixteen bytes alone, where
// an index that it doesn't know would have it copy all contents. A search for one buffer leaves at the first hit.
#![tactic(auto)]

ghost use Rattle.std.specs.Prelude.{◌≡◌};
ghost use Rattle.masks.specs.Bits.{buffer_of};
ghost use Rattle.search.specs.CodeSearch.{lowest_with, highest_with, named_of};
ghost use Rattle.search.specs.IdentLaws.{idents_of, named_within};

use contents::Contents;

// The sixteen identifiers.
fn idents(rows: [Contents; 16]) -> [u8; 16]
    ensures { result ≡ idents_of rows }
{
    let mut ids = [0; 16];
    for n in 0..16 {
        ids[n] = rows[n].bytes[0];
    }
    ids
}

// The lowest buffer of the mask that carries identifier i, if any: the first hit upwards.
pub fn lowest_with(rows: [Contents; 16], m: u16, i: u8) -> Option<u8>
    ensures { result ≡ buffer_of (lowest_with rows m i) }
{
    let ids = idents(rows);
    for k in 0..16 {
        if masks::test(m, k) && ids[k as usize] == i {
            return Some(k);
        }
    }
    None
}

// The highest buffer of the mask that carries identifier i, if any: the first hit downwards.
pub fn highest_with(rows: [Contents; 16], m: u16, i: u8) -> Option<u8>
    ensures { result ≡ buffer_of (highest_with rows m i) }
{
    let ids = idents(rows);
    for k in (0..16).rev() {
        if masks::test(m, k) && ids[k as usize] == i {
            return Some(k);
        }
    }
    None
}

// The mask m without those of the buffers from `from` on and below `to` that have no identifier. Where m has none of these
// buffers nothing is looked at: a module's transmit buffers are mostly all in one half.
fn named_within(m: u16, ids: [u8; 16], from: u8, to: u8) -> u16
    ensures { result ≡ named_within ids m from to }
{
    if m & masks::below(to) & !masks::below(from) == 0 {
        return m;
    }
    let mut rest = m;
    for k in from..to.min(16) {
        if ids[k as usize] == 0 {
            rest = masks::without(rest, k);
        }
    }
    rest
}

// The mask of the buffers of a mask that have an identifier.
pub fn named(rows: [Contents; 16], of: u16) -> u16
    ensures { result ≡ named_of rows of }
{
    let ids = idents(rows);
    named_within(named_within(of, ids, 0, 8), ids, 8, 16)
}
