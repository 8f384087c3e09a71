//! A replica of a head, and the digest and the safe version in it.

ghost use Rattle.std.specs.Prelude.{◌≡◌, Some, IfSome, IfNone, IsSome};
ghost use Rattle.entry.specs.Text.{entries_in, opening_in};
ghost use Rattle.entry.specs.View.{shown_digest};
ghost use Rattle.recovery_plan.specs.Good.{IsGood};
ghost use Rattle.recovery_plan.specs.Preferred.{better};

use crate::preferred::prefers;
use entry::{DigestRef, EntryRef, SafeVersion};
use replica::Holding;
use segment::SegmentRef;
use std::marker::Model;

/// A replica of a head, with the digest and the safe version that were found in it, so its bytes aren't read again. A
/// contract sees the replica.
#[derive(Drop)]
pub struct Head<'h, 'a> {
    replica: &'h Holding<'a>,
    digest: DigestRef<'a>,
    safe: SafeVersion,
}

impl<'h, 'a> Model for Head<'h, 'a> {
    ghost use Rattle.std.specs.Prelude.{◌≡◌, Some};
    ghost use Rattle.entry.specs.Text.{opening_in};
    ghost use Rattle.entry.specs.View.{shown_digest};
    ghost use Rattle.replica.specs.declared.holding.Holding.{Holding};

    ghost Value = { Holding };

    ghost view = { λ h. h.replica.now };

    ghost invariant = { λ h.
        opening_in h.replica.now.bytes ≡ Some (record { digest = shown_digest h.digest; safe = h.safe }) };
}

impl<'h, 'a> Head<'h, 'a> {
    /// The replica as one of a head. `segment` is the replica's segment. None if that has no digest.
    pub fn of(replica: &'h Holding<'a>, segment: &SegmentRef<'a>) -> Option<Head<'h, 'a>>
        requires good { IsGood replica.now }
        requires entries { segment.now ≡ entries_in replica.now.bytes }
        ensures some { IfSome result (λ head. head ≡ replica.entry.now) }
        ensures opens { IfSome result (λ head. IsSome (opening_in replica.entry.now.bytes)) }
        ensures none { IfNone result (IsSome (opening_in replica.entry.now.bytes) → ⊥) }
    {
        let mut entries = segment.entries();
        entries.next();
        let Some(EntryRef::Digest(digest)) = entries.next() else {
            return None;
        };
        match entries.next() {
            Some(entry) => match &entry {
                EntryRef::Safe(safe) => Some(Head {
                    replica,
                    digest,
                    safe: *safe,
                }),
                _ => None,
            },
            None => None,
        }
    }

    /// The replica.
    pub fn replica(&self) -> &'h Holding<'a>
        ensures { result.now ≡ self.now }
    {
        self.replica
    }

    /// The digest and the safe version.
    pub fn opening(&self) -> (DigestRef<'a>, SafeVersion)
        ensures { opening_in self.now.bytes ≡ Some (record { digest = shown_digest result.0; safe = result.1 }) }
    {
        (self.digest, self.safe)
    }
}

/// The later head if it is preferred to the best one before it, and else that one.
pub fn better_head<'h, 'a>(best: Option<Head<'h, 'a>>, later: Head<'h, 'a>) -> Head<'h, 'a>
    ensures { result ≡ better best.entry later.entry }
{
    match best {
        Some(best) => {
            if prefers(later.replica, best.replica) {
                later
            } else {
                best
            }
        }
        None => later,
    }
}
