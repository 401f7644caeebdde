// The items of a parcel, one after the other.
ghost use Rattle.std.specs.Prelude.{◌≡◌, ◌≤◌, length};
ghost use Rattle.std.specs.Result.{result_err};
ghost use Rattle.parcels.specs.Meaning.{refusal};
ghost use Rattle.parcels.specs.Reading.{read_items};

use crate::fault::ParcelFault;
use crate::item::{Item, open_item};

// Refuses what is not as many items as counted, with nothing after them. `count` is what the header says, against which the bytes
// are tested, and `total` the length of the whole parcel.
pub(crate) fn test_items(
    items: &[u8],
    total: usize,
    count: u16,
    width: usize,
) -> Result<(), ParcelFault>
    requires { length items.now ≤ total }
    ensures { refusal result ≡ result_err (read_items width total count items.now) }
{
    let mut rest = items;
    for _ in 0..count {
        let Some((_, after)) = open_item(rest, width) else {
            return Err(ParcelFault::BadItem(total - rest.len()));
        };
        rest = after;
    }
    if !rest.is_empty() {
        return Err(ParcelFault::BadItem(total - rest.len()));
    }
    Ok(())
}
