// What is planned: entries in key order, of which planning reads two numbers.
ghost use Rattle.std.specs.Prelude.{◌≡◌, ℕ};

// What planning asks of an entry: its drawing priority and its measure.
pub trait Entry {
    ghost priority: { Self → ℕ };

    ghost measure: { Self → ℕ };

    fn priority(&self) -> u16
        ensures { result ≡ priority self.now };

    fn measure(&self) -> u16
        ensures { result ≡ measure self.now };
}

// A priority alone: it measures nothing.
impl Entry for u16 {
    ghost priority = { λ entry. entry };

    ghost measure = { λ _. 0 };

    fn priority(&self) -> u16 {
        *self
    }

    fn measure(&self) -> u16 {
        0
    }
}

// A priority and a measure.
#[derive(Clone, Copy, PartialEq, Eq, Debug)]
pub struct MeasuredEntry {
    pub priority: u16,
    pub measure: u16,
}

impl Entry for MeasuredEntry {
    ghost priority = { λ entry. entry.priority };

    ghost measure = { λ entry. entry.measure };

    fn priority(&self) -> u16 {
        self.priority
    }

    fn measure(&self) -> u16 {
        self.measure
    }
}
