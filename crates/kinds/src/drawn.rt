// The drawing order of the entries of a kind.
ghost use Rattle.std.specs.Prelude.{◌≡◌};
ghost use Rattle.drawing.specs.Drawing.{drawn_before};
ghost use Rattle.kinds.specs.Kind.{Key};
ghost use Rattle.fields.specs.Orders.{StrictOrder};

use crate::kind::EntryKind;

// Whether the key a is drawn before the key b. No two different keys of a kind are drawn at one time.
pub fn drawn_before<K: EntryKind>(a: &[u8], b: &[u8]) -> bool
    ensures value { result ≡ drawn_before K.kind.key_order a.now b.now }
    ensures strict { StrictOrder (Key K.kind) (drawn_before K.kind.key_order) }
{
    drawing::drawn_before(a, b, K::compare_keys(a, b))
}
