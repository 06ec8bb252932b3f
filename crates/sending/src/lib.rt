// The frame that goes out of a buffer.
// The functions take the fourteen bytes of its contents by value; each answers for every argument.
#![tactic(auto)]

ghost use Rattle.std.specs.Prelude.{◌≡◌, ◌≤◌, length};
ghost use Rattle.contents.specs.Bytes.{frame_of};
ghost use Rattle.sending.specs.CodeRoom.{room_after};

// The size of the contents' frame, from 2 to 14: identifier, length, and min(12, length) data bytes.
#[tactic(auto, using(crate::proofs::Laws::sizes))]
pub fn frame_size(b: [u8; 14]) -> u8
    ensures value { result ≡ length (frame_of (record { bytes = b })) }
    ensures within { result ≤ 14 }
{
    2 + b[1].min(12)
}

// Writes the contents' frame over the room's first bytes and answers its size, from 2 to 14. A room of less than 14 bytes
// stays as it is, and the answer is the same.
#[tactic(auto, using(crate::proofs::Laws::room_laws))]
pub fn send(b: [u8; 14], room: &mut [u8]) -> u8
    ensures value { result ≡ length (frame_of (record { bytes = b })) }
    ensures room_after { room.new ≡ room_after (record { bytes = b }) room.old }
{
    let size = frame_size(b);
    if room.len() < 14 {
        return size;
    }
    let n = size as usize;
    room[..n].copy_from_slice(&b[..n]);
    size
}
