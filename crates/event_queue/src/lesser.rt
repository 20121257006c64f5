ghost use Rattle.std.specs.Prelude.{◌≡◌};
ghost use Rattle.event_queue.specs.Merged.{lesser_of};

use crate::key::Key;

/// The lesser of two pairs that may be there.
pub(crate) fn lesser(one: Option<Key>, other: Option<Key>) -> Option<Key>
    ensures { result ≡ lesser_of one other }
{
    match one {
        None => other,
        Some(a) => match other {
            None => Some(a),
            Some(b) => {
                if b.time.0 < a.time.0 || b.time.0 == a.time.0 && b.who.0 < a.who.0 {
                    Some(b)
                } else {
                    Some(a)
                }
            }
        },
    }
}
