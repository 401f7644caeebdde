// Which bytes are a valid message.
ghost use Rattle.std.specs.Prelude.{◌≡◌};
ghost use Rattle.messages.specs.Messages.{is_message};

use kinds::EntryKind;

// Whether the bytes are a message of the kind: the length is right and no field is invalid.
pub fn is_message<K: EntryKind>(message: &[u8]) -> bool
    ensures { result ≡ is_message K.kind message.now }
{
    message.len() == K::message_width() && K::invalid_at(message).is_none()
}
