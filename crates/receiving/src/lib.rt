// A frame that comes as a slice, and a buffer's contents after it is stored.
// The fourteen bytes are returned by value; each function answers for every argument.
#![tactic(auto)]

ghost use Rattle.std.specs.Prelude.{◌≡◌, get_or};
ghost use Rattle.contents.specs.Code.{well_sized};
ghost use Rattle.contents.specs.Bytes.{store_frame, image_of};

// The contents after a frame is stored whose parts are given: its identifier, its length cut, and that many of its data bytes,
// or all of them where it has fewer; zeros behind.
#[tactic(auto, using(crate::proofs::Laws::store_copied))]
pub fn store(ident: u8, len: u8, bytes: &[u8]) -> [u8; 14]
    ensures { result ≡ (store_frame ident len bytes.now).bytes }
{
    let size = contents::cut(len);
    let n = bytes.len().min(size as usize);
    let mut b = [0u8; 14];
    b[0] = ident;
    b[1] = size;
    b[2..2 + n].copy_from_slice(&bytes[..n]);
    b
}

// Byte k of a slice, 0 past its end.
pub fn byte_or_zero(f: &[u8], k: usize) -> u8
    ensures { result ≡ get_or f.now k 0 }
{
    f.get(k).copied().unwrap_or(0)
}

// The contents after a frame is stored that is one slice: its data part goes on to `store` as it stands. An identifier or a
// length byte that it lacks is 0.
pub fn store_frame(f: &[u8]) -> [u8; 14]
    ensures { result ≡ (image_of f.now).bytes }
{
    match f {
        [ident, len, ..] => store(*ident, *len, &f[2..]),
        _ => store(byte_or_zero(f, 0), byte_or_zero(f, 1), b""),
    }
}

// The slice has 2 + min(12, the length byte's low four bits) bytes.
pub fn well_sized(f: &[u8]) -> bool
    ensures { result ≡ well_sized f.now }
{
    match f {
        [_, len, data @ ..] => data.len() == contents::cut(*len) as usize,
        _ => false,
    }
}
