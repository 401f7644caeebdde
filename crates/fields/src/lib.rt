// Fields of several bytes, the lowest byte first, read from any bytes and written; and the lemmas on them that every layer shares.
#![tactic(auto)]

mod little_endian;

ghost use Rattle.std.specs.Prelude.{◌≡◌, ◌+◌, ◌*◌, slice_index};
ghost use Rattle.fields.specs.Numbers.{part};

pub use little_endian::LittleEndian;

// The byte at an offset; one that is not there counts as 0.
pub fn byte_at(bytes: &[u8], at: usize) -> u8
    ensures { result ≡ slice_index bytes.now at }
{
    bytes.get(at).copied().unwrap_or(0)
}

// The bytes from an offset on, so many of them, or as many as there are.
pub fn slice_at(bytes: &[u8], at: usize, count: usize) -> &[u8]
    ensures { result.now ≡ part at count bytes.now }
{
    let rest = &bytes[at.min(bytes.len())..];
    &rest[0..count.min(rest.len())]
}

// Piece i of pieces of one width that lie one after the other from an offset on.
pub fn piece_at(bytes: &[u8], start: usize, width: usize, i: usize) -> &[u8]
    ensures { result.now ≡ part (start + i * width) width bytes.now }
{
    slice_at(bytes, i.saturating_mul(width).saturating_add(start), width)
}
