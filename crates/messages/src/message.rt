// What the typed values of all kinds have in common: each has a message, and a valid message has a value.
ghost use Rattle.std.specs.Prelude.{◌≡◌, ℕ, List, true, Some, None};
ghost use Rattle.messages.specs.Messages.{decoded, is_message};

use crate::valid::is_message;
use kinds::EntryKind;

// A value of the fields of a message. It is not public, since `decode` asks first whether a message is valid.
pub(crate) trait Fields {
    type Kind: EntryKind;

    // The bytes that a value is written in.
    ghost encoded: { Self → List ℕ };

    // What the fields of a message hold.
    ghost fields: { List ℕ → Self };

    // What the fields of a valid message hold.
    fn read(message: &[u8]) -> Self
        requires { is_message Self.Kind.kind message.now ≡ true }
        ensures value { result ≡ fields message.now }
        ensures inverse { encoded result ≡ message.now };
}

// A value whose message has N bytes.
pub trait Message<const N: usize>: Fields {
    // The message of a value. It is valid only if the fields are.
    fn encode(&self) -> [u8; N]
        ensures value { result ≡ Self.encoded self.now }
        ensures inverse { Self.Kind.kind.invalid result ≡ None → decoded Self.Kind.kind Self.fields result ≡ Some self.now };

    // The value of a valid message; none where the length is wrong or a field is invalid.
    final fn decode(message: &[u8]) -> Option<Self>
        ensures value { result ≡ decoded Self.Kind.kind Self.fields message.now }
        ensures inverse { (x : Self) → result ≡ Some x → Self.encoded x ≡ message.now }
    {
        if is_message::<Self::Kind>(message) {
            Some(Self::read(message))
        } else {
            None
        }
    }
}
