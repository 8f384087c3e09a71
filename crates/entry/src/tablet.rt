//! Tablets: ranges of the places of a table.

ghost use Rattle.std.specs.Prelude.{◌≡◌, List};
ghost use Rattle.entry.specs.View.{shown_key};

use crate::key::place_at;
use crate::row::Row;
use crate::view::KeyRef;

/// The places of a table from `first` to `last`, both included.
#[derive(Clone, Copy)]
pub struct Tablet {
    pub table: u64,
    pub first: u64,
    pub last: u64,
}

/// The size in bytes of one object, with the table and the place of its key.
#[derive(Clone, Copy)]
pub struct Size {
    pub table: u64,
    pub place: u64,
    pub bytes: u64,
}

impl Tablet {
    ghost use Rattle.std.specs.Prelude.{◌≡◌};
    ghost use Rattle.entry.specs.View.{shown_key};
    ghost use Rattle.entry.specs.Tablet.{has_key, is_before};

    /// Returns true if the key's place is in the tablet.
    fn has(&self, key: &KeyRef) -> bool
        ensures { result ≡ has_key self.now (shown_key key.now) }
    {
        let place = place_at(key.bytes);
        self.table == key.table && self.first <= place && place <= self.last
    }

    /// Returns true if this tablet ends before `other` begins.
    fn is_before(&self, other: &Tablet) -> bool
        ensures { result ≡ is_before self.now other.now }
    {
        self.table < other.table || (self.table == other.table && self.last < other.first)
    }
}

/// The tablets of a master, or of a will.
pub type Tablets = Row<Tablet>;

impl Row<Tablet> {
    ghost use Rattle.std.specs.Prelude.{◌≡◌};
    ghost use Rattle.entry.specs.View.{shown_key};
    ghost use Rattle.entry.specs.Tablet.{have_key, are_tablets};

    /// Returns true if the key's place is in one of the tablets.
    pub fn have(&self, key: &KeyRef) -> bool
        ensures { result ≡ have_key self.now (shown_key key.now) }
    {
        self.as_slice().iter().any(|tablet| tablet.has(key))
    }

    /// Returns true if the list of tablets is valid: it isn't empty, each tablet has at least one place, and the
    /// tablets are sorted and disjoint.
    pub fn are_valid(&self) -> bool
        ensures { result ≡ are_tablets self.now }
    {
        are_tablets(self.as_slice())
    }
}

ghost use Rattle.std.specs.Prelude.{◌<◌, length};
ghost use Rattle.entry.specs.Tablet.{are_in_order as in_order, are_tablets as are_valid};

/// Returns true if this is a valid list of tablets: it isn't empty, each tablet has at least one place, and the
/// tablets are sorted and disjoint.
pub fn are_tablets(tablets: &[Tablet]) -> bool
    ensures { result ≡ are_valid tablets.now }
{
    !tablets.is_empty() && are_in_order(tablets)
}

fn are_in_order(tablets: &[Tablet]) -> bool
    requires { 0 < length tablets.now }
    ensures { result ≡ in_order tablets.now }
{
    for i in 1..tablets.len() {
        let tablet = &tablets[i - 1];
        if tablet.first > tablet.last || !tablet.is_before(&tablets[i]) {
            return false;
        }
    }
    let last = &tablets[tablets.len() - 1];
    last.first <= last.last
}
