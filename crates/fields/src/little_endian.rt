// Numbers that fields of several bytes hold, the lowest byte first.
ghost use Rattle.std.specs.Prelude.{◌≡◌, ℕ, ◌≤◌};
ghost use Rattle.fields.specs.Numbers.{filled, le, number, part};
ghost use Rattle.std.proofs.Common.{lit≤};

use crate::slice_at;

// A type of numbers that take N bytes, the lowest first.
pub trait LittleEndian<const N: usize>: Copy {
    // The number itself.
    ghost value: { Self → ℕ };

    fn from_bytes(bytes: [u8; N]) -> Self
        ensures { value result ≡ number bytes.entry };

    fn to_bytes(self) -> [u8; N]
        ensures { result ≡ le N (value self) };

    // An array of N bytes can be made: any bound below 2 ^ 63 would do.
    ghost narrow: { N ≤ 16 };

    // The number in the N bytes from an offset on; bytes that are not there count as 0.
    #[tactic(auto, using(crate::proofs::Numbers::number_filled))]
    final fn read_at(bytes: &[u8], at: usize) -> Self
        ensures { value result ≡ number (part at N bytes.now) }
    {
        Self::from_bytes(bytes_at(bytes, at))
    }
}

impl LittleEndian<2> for u16 {
    ghost value = { λ n. n };

    ghost narrow = { lit≤ tt };

    fn from_bytes(bytes: [u8; 2]) -> u16
        ensures { result ≡ number bytes }
    {
        u16::from_le_bytes(bytes)
    }

    fn to_bytes(self) -> [u8; 2] {
        u16::to_le_bytes(self)
    }
}

impl LittleEndian<4> for u32 {
    ghost value = { λ n. n };

    ghost narrow = { lit≤ tt };

    fn from_bytes(bytes: [u8; 4]) -> u32
        ensures { result ≡ number bytes }
    {
        u32::from_le_bytes(bytes)
    }

    fn to_bytes(self) -> [u8; 4] {
        u32::to_le_bytes(self)
    }
}

// The N bytes from an offset on; those that are not there count as 0.
fn bytes_at<const N: usize>(bytes: &[u8], at: usize) -> [u8; N]
    ensures { result ≡ filled N 0 (part at N bytes.now) }
{
    let there = slice_at(bytes, at, N);
    // A whole field is taken at once: to copy a number of bytes that is not known costs several times as much.
    if let Some((field, _)) = there.split_first_chunk() {
        return *field;
    }
    let mut field = [0; N];
    field[..there.len()].copy_from_slice(there);
    field
}
