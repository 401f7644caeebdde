// The twelve bytes that a parcel begins with.
ghost use Rattle.std.specs.Prelude.{◌≡◌};
ghost use Rattle.parcels.specs.Meaning.{refusal};
ghost use Rattle.parcels.specs.Reading.{header_refusal};

use crate::fault::ParcelFault;
use fields::LittleEndian;

pub(crate) const LENGTH: usize = 12;

const VERSION: u16 = 1;

// Refuses what cannot be the header of a parcel of the kind, which is the number that the caller asks for.
pub(crate) fn test_header(bytes: &[u8], kind: u8) -> Result<(), ParcelFault>
    ensures { refusal result ≡ header_refusal kind bytes.now }
{
    if bytes.len() < LENGTH {
        return Err(ParcelFault::Short(bytes.len()));
    }
    let [b'P', b'C', b'L', ..] = bytes else {
        return Err(ParcelFault::Mark);
    };
    if u16::read_at(bytes, 3) != VERSION {
        return Err(ParcelFault::Version);
    }
    if bytes[5] != kind {
        return Err(ParcelFault::Kind);
    }
    Ok(())
}
