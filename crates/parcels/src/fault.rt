// Why a parcel is refused.
ghost use Rattle.std.specs.Prelude.{◌≡◌, Some};
ghost use Rattle.parcels.specs.Meaning.{coded, numbers_shown};

use std::fmt;

// The cases in the order in which they are tested; `coded` has the number and the place of each.
#[derive(Clone, Copy, PartialEq, Eq, Debug)]
pub enum ParcelFault {
    // Shorter than a header: its length.
    Short(usize),
    Mark,
    Version,
    Kind,
    // An item is missing, cut short or of unknown first byte, or bytes are left over: the offset where it begins.
    BadItem(usize),
}

// The two columns of the table `coded`: a conversion into a pair of numbers would leave them without names.
impl ParcelFault {
    pub fn number(&self) -> u8
        ensures { result ≡ (coded self.now).0 }
    {
        match self {
            ParcelFault::Short(_) => 31,
            ParcelFault::Mark | ParcelFault::Version | ParcelFault::Kind => 32,
            ParcelFault::BadItem(_) => 33,
        }
    }

    pub fn place(&self) -> usize
        ensures { result ≡ (coded self.now).1 }
    {
        match self {
            ParcelFault::Short(length) => *length,
            ParcelFault::Mark => 0,
            ParcelFault::Version => 3,
            ParcelFault::Kind => 5,
            ParcelFault::BadItem(at) => *at,
        }
    }
}

// Number and place.
impl fmt::Display for ParcelFault {
    ghost output = { λ fault. Some (numbers_shown (coded fault).0 (coded fault).1) };

    fn fmt<W: fmt::Write>(&self, f: &mut fmt::Formatter<W>) -> fmt::Result {
        let number = self.number();
        let place = self.place();
        write!(f, "{number} {place}")
    }
}
