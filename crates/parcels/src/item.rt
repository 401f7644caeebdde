// One item of a parcel, opened where it lies.
ghost use Rattle.std.specs.Prelude.{◌≡◌};
ghost use Rattle.std.specs.Option.{option_map};
ghost use Rattle.parcels.specs.Meaning.{opened};
ghost use Rattle.parcels.specs.Reading.{read_item};

// An item borrows its bytes from the parcel.
#[derive(Clone, Copy, PartialEq, Eq, Debug)]
pub enum Item<'a> {
    Message(&'a [u8]),
    Note(&'a [u8]),
}

// The item at the front, a message being `width` bytes wide, and the bytes after it.
pub(crate) fn open_item<'a>(bytes: &'a [u8], width: usize) -> Option<(Item<'a>, &'a [u8])>
    ensures { option_map opened result ≡ read_item width bytes.now }
{
    match bytes {
        [1, rest @ ..] => {
            let (message, after) = rest.split_at_checked(width)?;
            Some((Item::Message(message), after))
        }
        [2, n, rest @ ..] => {
            let (note, after) = rest.split_at_checked(usize::from(*n))?;
            Some((Item::Note(note), after))
        }
        _ => None,
    }
}
