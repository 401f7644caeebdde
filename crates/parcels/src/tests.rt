// Parcels of every sort, with messages four bytes wide.
use crate::{Counts, Item, Parcel};
use std::test::Fail;

// Bytes, and the number and place of their refusal.
const REFUSED: [(&[u8], u8, usize); 14] = [
    (b"", 31, 0),
    (b"PCL\x01\0\x01\x07\0\0\0\0", 31, 11),
    (b"PCK\x02\0\x02\x07\0\0\0\0\0", 32, 0),
    (b"PCL\x01\x01\x02\x07\0\0\0\0\0", 32, 3),
    (b"PCL\x01\0\x02\x07\0\0\0\0\0", 32, 5),
    // bytes left over
    (b"PCL\x01\0\x01\x07\0\0\0\0\0\x01", 33, 12),
    (b"PCL\x01\0\x01\x07\0\0\0\x01\0\x02\0\0", 33, 14),
    // an item that is missing: at the end
    (b"PCL\x01\0\x01\x07\0\0\0\x01\0", 33, 12),
    (b"PCL\x01\0\x01\x07\0\0\0\0\x01\x02\0", 33, 14),
    // of unknown first byte
    (b"PCL\x01\0\x01\x07\0\0\0\x01\0\0", 33, 12),
    (b"PCL\x01\0\x01\x07\0\0\0\x02\0\x01abcd\x03abcd", 33, 17),
    // cut short
    (b"PCL\x01\0\x01\x07\0\0\0\x01\0\x01abc", 33, 12),
    (b"PCL\x01\0\x01\x07\0\0\0\x02\0\x01abcd\x02", 33, 17),
    (b"PCL\x01\0\x01\x07\0\0\0\x02\0\x01abcd\x02\x03ab", 33, 17),
];

#[test]
fn refused(rt: HostRuntime) -> Result<(), Fail> {
    for (bytes, number, place) in REFUSED {
        let Err(fault) = Parcel::read(bytes, 1, 4) else {
            return Err(Fail::new("accepted"));
        };
        assert_eq!(rt; fault.number(), number);
        assert_eq!(rt; fault.place(), place);
    }
    Ok(())
}

#[test]
fn accepted(rt: HostRuntime) -> Result<(), Fail> {
    let bytes = b"PCL\x01\0\x01\x02\x01\0\x80\x04\0\x01abcd\x02\0\x02\x03xyz\x01efgh";
    let parcel = Parcel::read(bytes, 1, 4)?;
    assert_eq!(rt; parcel.chapter(), 0x8000_0102);
    assert_eq!(rt;
        parcel.counts(),
        Counts {
            messages: 2,
            notes: 2,
        }
    );
    let expected = [
        (1, Item::Message(b"abcd")),
        (2, Item::Note(b"")),
        (3, Item::Note(b"xyz")),
        (4, Item::Message(b"efgh")),
    ];
    for (item, right) in parcel.items().zip(expected) {
        assert_eq!(rt; item, right);
    }
    Ok(())
}

#[test]
fn as_many_items_as_counted(rt: HostRuntime) -> Result<(), Fail> {
    let bytes = b"PCL\x01\0\x01\x02\x01\0\x80\x04\0\x01abcd\x02\0\x02\x03xyz\x01efgh";
    let parcel = Parcel::read(bytes, 1, 4)?;
    assert_eq!(rt; parcel.items().count(), 4);
    for (expected, (number, _)) in (1..=4).zip(parcel.items()) {
        assert_eq!(rt; number, expected);
    }
    Ok(())
}

#[test]
fn widths(rt: HostRuntime) {
    assert!(rt; Parcel::read(b"PCL\x01\0\xff\0\0\0\0\0\0", 255, 128).is_ok());
    assert!(rt; Parcel::read(b"PCL\x01\0\x02\0\0\0\0\x01\0\x01a", 2, 1).is_ok());
    assert!(rt; Parcel::read(b"PCL\x01\0\x02\0\0\0\0\x01\0\x01ab", 2, 1).is_err());
}
