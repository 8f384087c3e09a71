//! Wills.

ghost use Rattle.std.specs.Prelude.{◌≡◌, ◌<◌, IfSome};
ghost use Rattle.entry.specs.View.{shown_key};
ghost use Rattle.tablet_will.specs.Parts.{partition_of_key, partitions_of, AreParts};

use crate::part::{Part, partition_at};
use entry::{Key, KeyRef, place};
use std::marker::Model;

/// A will: its parts say which partition each place goes to. A contract sees the parts as a list, sorted by table, then
/// by place.
#[derive(Drop)]
pub struct Will {
    parts: Vec<Part>,
}

impl Model for Will {
    ghost use Rattle.std.specs.Prelude.{List};
    ghost use Rattle.tablet_will.specs.declared.part.Part.{Part as PartValue};
    ghost use Rattle.tablet_will.specs.Parts.{AreParts};

    ghost Value = { List PartValue };

    ghost view = { λ w. w.parts.items };

    ghost invariant = { λ w. AreParts w.parts.items };
}

impl Will {
    /// Makes a will of these parts. The call takes no memory.
    pub(crate) fn new(parts: Vec<Part>) -> Will
        requires { AreParts parts.items }
        ensures { result ≡ parts.items }
    {
        Will { parts }
    }

    /// Returns the partition of a key's place, or None if the place is in no part. The call takes no memory.
    pub fn partition_of(&self, key: &Key) -> Option<u32>
        ensures partition { result ≡ partition_of_key self.now key.now }
        ensures within { IfSome result (λ n. n < partitions_of self.now) }
    {
        partition_at(self.parts.as_slice(), key.table, place(key))
    }

    /// Does the same as `partition_of` for a borrowed key.
    pub fn partition_of_ref(&self, key: &KeyRef<'_>) -> Option<u32>
        ensures partition { result ≡ partition_of_key self.now (shown_key key.now) }
        ensures within { IfSome result (λ n. n < partitions_of self.now) }
    {
        partition_at(self.parts.as_slice(), key.table, key.place())
    }

    /// Returns how many partitions there are, 1 to 4,294,967,295. They are numbered from 0.
    pub fn partitions(&self) -> u32
        ensures count { result ≡ partitions_of self.now }
        ensures valid { AreParts self.now }
    {
        let parts = self.parts.as_slice();
        parts[parts.len() - 1].partition + 1
    }

    /// Returns the parts, sorted by table, then by place.
    pub fn parts(&self) -> &[Part]
        ensures parts { result.now ≡ self.now }
        ensures valid { AreParts self.now }
    {
        self.parts.as_slice()
    }
}
