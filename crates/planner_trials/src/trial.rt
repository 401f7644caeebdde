// The kinds of entries that the planner is tried at.
ghost use Rattle.std.specs.Prelude.{◌≡◌, ℕ};

use planner::entry::{Entry, MeasuredEntry};

// An entry that can be made of a priority.
pub trait Trial: Entry + Copy {
    // What an entry of a priority measures.
    ghost measured: { ℕ → ℕ };

    fn of(priority: u16) -> Self
        ensures priority { Self.priority result ≡ priority }
        ensures measure { Self.measure result ≡ measured priority };
}

impl Trial for u16 {
    ghost measured = { λ _. 0 };

    fn of(priority: u16) -> u16 {
        priority
    }
}

// It measures as much as its priority, so that the measures differ.
impl Trial for MeasuredEntry {
    ghost measured = { λ priority. priority };

    fn of(priority: u16) -> MeasuredEntry {
        MeasuredEntry {
            priority,
            measure: priority,
        }
    }
}
