//! Groups on their way to workers.

ghost use Rattle.std.specs.Prelude.{◌≡◌, ◌↔◌, length, true, []};
ghost use Rattle.partitions.specs.Parted.{IsParcel};

use division::{Group, GroupEntries};
use std::marker::{Brand, Model, PhantomData};

/// A log and the will that divides it: the entries of the log's segments, the will's parts, and the safe version that
/// the log records. Each rebuild has a division of its own.
pub trait Division {
    ghost use Rattle.std.specs.Prelude.{ℕ, List};
    ghost use Rattle.entry.specs.declared.entry.Entry.{Entry};
    ghost use Rattle.tablet_will.specs.declared.part.Part.{Part};

    ghost segments: { List (List Entry) };

    ghost parts: { List Part };

    ghost safe: { ℕ };
}

impl Division for Brand {
    ghost use Rattle.std.specs.Prelude.{[]};

    ghost segments = { [] };

    ghost parts = { [] };

    ghost safe = { 0 };
}

/// A group on its way to a worker, with the place of its segment in the log. It is one of the division's groups.
#[derive(Drop)]
pub struct Parcel<'a, D: Division> {
    at: usize,
    group: Group<'a>,
    of: PhantomData<D>,
}

impl<'a, D: Division> Model for Parcel<'a, D> {
    ghost use Rattle.partitions.specs.Parted.{Parceled, IsParcel};

    ghost Value = { Parceled };

    ghost view = { λ p. record { at = p.at; partition = p.group.partition; entries = p.group.entries } };

    ghost invariant = { λ p. IsParcel D.parts D.segments p.at p.group.partition p.group.entries };
}

impl<'a, D: Division> Parcel<'a, D> {
    /// A parcel with a group of the segment at this place.
    pub fn new(at: usize, group: Group<'a>) -> Parcel<'a, D>
        requires { IsParcel D.parts D.segments at group.partition group.entries }
    {
        Parcel {
            at,
            group,
            of: PhantomData,
        }
    }

    /// The place of the segment in the log.
    pub fn at(&self) -> usize
        ensures place { result ≡ self.now.at }
        ensures valid { IsParcel D.parts D.segments self.now.at self.now.partition self.now.entries }
    {
        self.at
    }

    /// The partition of the group.
    pub fn partition(&self) -> u32
        ensures { result ≡ self.now.partition }
    {
        self.group.partition
    }

    /// The entries of the group, in the order of the segment.
    pub fn entries(&self) -> &GroupEntries<'a>
        ensures entries { result.now ≡ self.now.entries }
        ensures valid { IsParcel D.parts D.segments self.now.at self.now.partition self.now.entries }
    {
        &self.group.entries
    }

    /// How many entries the group has.
    pub fn len(&self) -> usize
        ensures { result ≡ length self.now.entries }
    {
        self.group.entries.len()
    }

    /// Whether the group has no entries.
    pub fn is_empty(&self) -> bool
        ensures { result ≡ true ↔ self.now.entries ≡ [] }
    {
        self.group.entries.len() == 0
    }
}
