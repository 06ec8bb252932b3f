// A buffer's contents, and a window's reads and writes of them.
// The functions take the fourteen bytes by value and return them so; each answers for every argument.
#![tactic(auto)]

ghost use Rattle.std.specs.Prelude.{◌≡◌, get_or};
ghost use Rattle.contents.specs.Bytes.{cut, with_ident, with_length, with_data};

// Identifier, length, data 0 to 11: fourteen bytes that travel as one array, copied whole. Between store, window and send it is that array
// and no struct with methods: document 01 names this form.
#[repr(C)]
#[derive(Clone, Copy)]
pub struct Contents {
    pub bytes: [u8; 14],
}

// A buffer's contents after reset.
pub const BLANK: Contents = Contents { bytes: [0; 14] };

// The smaller of 12 and a length byte's low four bits.
pub fn cut(len: u8) -> u8
    ensures { result ≡ cut len }
{
    (len % 16).min(12)
}

// The byte at a place, identifier 0, length 1, data 2 to 13; 0 at a place from 14 on.
pub fn byte_at(b: [u8; 14], place: u8) -> u8
    ensures { result ≡ get_or b place 0 }
{
    b.get(place as usize).copied().unwrap_or(0)
}

// The contents with another identifier.
#[tactic(auto, using(crate::proofs::Laws::ident_set), unfolding(crate::specs::Bytes::with_ident))]
pub fn with_ident(old: [u8; 14], v: u8) -> [u8; 14]
    ensures { result ≡ (with_ident (record { bytes = old }) v).bytes }
{
    let mut b = old;
    b[0] = v;
    b
}

// The contents with another length byte, kept as it is given.
#[tactic(auto, using(crate::proofs::Laws::length_byte_set), unfolding(crate::specs::Bytes::with_length))]
pub fn with_length(old: [u8; 14], v: u8) -> [u8; 14]
    ensures { result ≡ (with_length (record { bytes = old }) v).bytes }
{
    let mut b = old;
    b[1] = v;
    b
}

// The contents with another data byte j; the same contents where j is from 12 on.
#[tactic(auto, unfolding(crate::specs::Bytes::with_data))]
pub fn with_data(old: [u8; 14], j: u8, v: u8) -> [u8; 14]
    ensures { result ≡ (with_data (record { bytes = old }) j v).bytes }
{
    let mut b = old;
    if j < 12 {
        b[2 + j as usize] = v;
    }
    b
}
