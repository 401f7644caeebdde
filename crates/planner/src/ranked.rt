// Where planning reads the priority and the measure of a rank: from entries, or from two lists.
ghost use Rattle.std.specs.Prelude.{◌≡◌, ℕ, List, map, length, slice_index};

use crate::entry::Entry;

// Entries in key order. A rank is a position among them; one past the end of the priorities has priority 0, and one past the end of the
// measures has measure 0.
pub(crate) trait Ranked: Copy {
    ghost priorities: { Self → List ℕ };

    ghost measures: { Self → List ℕ };

    // How many entries there are.
    fn count(&self) -> usize
        ensures { result ≡ length (priorities self.now) };

    fn priority(&self, rank: u16) -> u16
        ensures { result ≡ slice_index (priorities self.now) rank };

    fn measure(&self, rank: u16) -> u16
        ensures { result ≡ slice_index (measures self.now) rank };
}

// Each entry tells both numbers.
#[derive_where(Clone, Copy)]
pub(crate) struct Entries<'a, E> {
    pub(crate) entries: &'a [E],
}

impl<'a, E: Entry> Ranked for Entries<'a, E> {
    ghost priorities = { λ source. map E.priority source.entries.now };

    ghost measures = { λ source. map E.measure source.entries.now };

    fn count(&self) -> usize {
        self.entries.len()
    }

    fn priority(&self, rank: u16) -> u16 {
        self.entries.get(usize::from(rank)).map_or(0, E::priority)
    }

    fn measure(&self, rank: u16) -> u16 {
        self.entries.get(usize::from(rank)).map_or(0, E::measure)
    }
}

// Two lists as they lie, of any lengths: what is longer than the priorities is not read.
#[derive(Clone, Copy)]
pub(crate) struct Lists<'a> {
    pub(crate) priorities: &'a [u16],
    pub(crate) measures: &'a [u16],
}

impl<'a> Ranked for Lists<'a> {
    ghost priorities = { λ source. source.priorities.now };

    ghost measures = { λ source. source.measures.now };

    fn count(&self) -> usize {
        self.priorities.len()
    }

    fn priority(&self, rank: u16) -> u16 {
        self.priorities.get(usize::from(rank)).copied().unwrap_or(0)
    }

    fn measure(&self, rank: u16) -> u16 {
        self.measures.get(usize::from(rank)).copied().unwrap_or(0)
    }
}
