//! Which entry a reader of a segment may meet next.

ghost use Rattle.std.specs.Prelude.{◌≡◌, ◌∷◌, List, false, IfSome, IfNone};
ghost use Rattle.entry.specs.declared.entry.Entry.{Entry};
ghost use Rattle.entry.specs.Text.{ends_with};
ghost use Rattle.entry.specs.View.{shown, shown_ids};
ghost use Rattle.segment.specs.Order.{completes};

use entry::{DigestRef, EntryRef, Role};

/// What has to come next in a segment.
#[derive(Clone, Copy)]
pub(crate) enum Expected {
    Header,
    /// The digest of a head. Its last id is this number, which is the head's own.
    Digest(u64),
    Safe,
    /// Objects and tombstones, or the end.
    Data,
}

/// Returns true if `id` is the last id of the digest.
fn ends_with_id(digest: &DigestRef, id: u64) -> bool
    ensures { result ≡ ends_with id (shown_ids digest.now) }
{
    let count = digest.count();
    count > 0 && digest.id(count - 1) == id
}

impl Expected {
    /// Returns what has to come after the entry, or None if the entry itself may not come here.
    pub(crate) fn next(self, entry: &EntryRef) -> Option<Expected>
        ensures allowed { IfSome result (λ next. (more : List Entry) →
            completes self (shown entry.now ∷ more) ≡ completes next more) }
        ensures refused { IfNone result ((more : List Entry) → completes self (shown entry.now ∷ more) ≡ false) }
    {
        match (self, entry) {
            (Expected::Header, EntryRef::Header(header)) => match header.role {
                Role::Head => Some(Expected::Digest(header.segment)),
                Role::Survivor => Some(Expected::Data),
            },
            (Expected::Digest(segment), EntryRef::Digest(digest)) => {
                ends_with_id(digest, segment).then_some(Expected::Safe)
            }
            (Expected::Safe, EntryRef::Safe(_)) => Some(Expected::Data),
            (Expected::Data, EntryRef::Object(_) | EntryRef::Tombstone(_)) => Some(Expected::Data),
            _ => None,
        }
    }
}
