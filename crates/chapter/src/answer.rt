// What a delivery and a look-up answer.
ghost use Rattle.std.specs.Prelude.{◌≡◌};
ghost use Rattle.chapter.specs.Coded.{outcome_value};

// What became of a delivered message.
#[derive(Clone, Copy, PartialEq, Eq, Debug)]
pub enum Outcome {
    // Its key had no message.
    New,
    // It outranks the message that stood, and stands in its place.
    Replaced,
    // The message that stood ranks no lower, and still stands.
    Overtaken,
}

impl Outcome {
    // The number that is printed and sent for it; as a conversion it would have no name.
    pub fn value(&self) -> u8
        ensures { result ≡ outcome_value self.now }
    {
        match self {
            Outcome::New => 1,
            Outcome::Replaced => 2,
            Outcome::Overtaken => 3,
        }
    }
}
