//! Parts of tablets.

ghost use Rattle.std.specs.Prelude.{◌≡◌, true};
ghost use Rattle.tablet_will.specs.Parts.{partition_at, are_sorted};

/// The places of a table from `first` to `last`, both included, which go to one partition.
#[derive(Clone, Copy)]
pub struct Part {
    pub table: u64,
    pub first: u64,
    pub last: u64,
    pub partition: u32,
}

impl Part {
    ghost use Rattle.std.specs.Prelude.{◌≡◌};
    ghost use Rattle.tablet_will.specs.Order.{is_below};
    ghost use Rattle.tablet_will.specs.Parts.{is_in_part};

    fn has(&self, table: u64, place: u64) -> bool
        ensures { result ≡ is_in_part self.now table place }
    {
        self.table == table && self.first <= place && place <= self.last
    }

    /// Returns true if the part ends before the place.
    fn ends_before(&self, table: u64, place: u64) -> bool
        ensures { result ≡ is_below self.now.table self.now.last table place }
    {
        self.table < table || (self.table == table && self.last < place)
    }
}

/// Returns the partition of a place, or None if the place is in no part. A binary search finds the part.
pub(crate) fn partition_at(parts: &[Part], table: u64, place: u64) -> Option<u32>
    requires { are_sorted parts.now ≡ true }
    ensures { result ≡ partition_at parts.now table place }
{
    let at = parts.partition_point(|part| part.ends_before(table, place));
    if at == parts.len() {
        return None;
    }
    let part = &parts[at];
    if part.has(table, place) {
        Some(part.partition)
    } else {
        None
    }
}
