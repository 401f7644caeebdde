// A parcel that was read whole.
ghost use Rattle.std.specs.Prelude.{◌≡◌, ◌^◌, ◌<◌, length};
ghost use Rattle.std.specs.Result.{result_map_both};
ghost use Rattle.parcels.specs.Meaning.{coded};
ghost use Rattle.parcels.specs.Reading.{read_parcel, AcceptsWritten};
ghost use Rattle.parcels.specs.Walk.{contents, numbered, to_come};

use crate::fault::ParcelFault;
use crate::header::{LENGTH, test_header};
use crate::items::test_items;
use crate::walk::Items;
use fields::LittleEndian;

// It borrows its bytes, of which it keeps those of the items.
#[derive(Clone, Copy, Debug)]
pub struct Parcel<'a> {
    pub(crate) chapter: u32,
    pub(crate) count: u16,
    pub(crate) width: usize,
    pub(crate) items: &'a [u8],
}

impl<'a> Parcel<'a> {
    // The parcel that the bytes are, for a kind and its message width, or the refusal. The two are any numbers, since parcels stand
    // below the kinds and know none of them.
    pub fn read(bytes: &'a [u8], kind: u8, width: usize) -> Result<Parcel<'a>, ParcelFault>
        ensures answer { result_map_both contents coded result ≡ read_parcel kind width bytes.now }
        ensures written { AcceptsWritten kind width bytes.now (result_map_both contents coded result) }
    {
        test_header(bytes, kind)?;
        let items = &bytes[LENGTH..];
        let count = u16::read_at(bytes, 10);
        test_items(items, bytes.len(), count, width)?;
        let chapter = u32::read_at(bytes, 6);
        Ok(Parcel {
            chapter,
            count,
            width,
            items,
        })
    }

    // The number of the chapter that the parcel is for.
    pub fn chapter(&self) -> u32
        ensures { result ≡ (contents self.now).chapter }
    {
        self.chapter
    }

    // The items in order, each with its number from 1.
    pub fn items(&self) -> Items<'a>
        ensures items { to_come result ≡ numbered 1 (contents self.now).items }
        ensures few { length (contents self.now).items < 2 ^ 16 }
    {
        Items {
            rest: self.items,
            width: self.width,
            count: self.count,
            passed: 0,
        }
    }
}
