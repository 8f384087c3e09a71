//! Whether two lists have the same replicas.

ghost use Rattle.std.specs.Prelude.{◌≡◌, ◌↔◌, IsTrue};
ghost use Rattle.entry.specs.Bag.{IsAmong};
ghost use Rattle.replica.specs.declared.holding.Holding.{Holding};
ghost use Rattle.crash_fleet.specs.Same.{AreAmong, HaveSame};

use replica::Holding;

fn is_same(one: &Holding<'_>, other: &Holding<'_>) -> bool
    ensures { IsTrue result ↔ one.now ≡ other.now }
{
    let is_same_place = one.backup == other.backup && one.master == other.master;
    let is_same_segment = one.segment == other.segment && one.is_open == other.is_open;
    let is_same_text = one.bytes.as_slice() == other.bytes.as_slice();
    is_same_place && is_same_segment && is_same_text
}

/// Whether a replica is in a list.
fn has(list: &[Holding<'_>], wanted: &Holding<'_>) -> bool
    ensures { IsTrue result ↔ IsAmong wanted.now list.now }
{
    for holding in list {
        if is_same(holding, wanted) {
            return true;
        }
    }
    false
}

/// Whether all replicas of one list are in the other.
fn has_all(ones: &[Holding<'_>], others: &[Holding<'_>]) -> bool
    ensures { IsTrue result ↔ AreAmong ones.now others.now }
{
    for holding in ones {
        if !has(others, holding) {
            return false;
        }
    }
    true
}

/// Whether two lists have the same replicas, in whatever order.
pub(crate) fn have_same(ones: &[Holding<'_>], others: &[Holding<'_>]) -> bool
    ensures { IsTrue result ↔ HaveSame ones.now others.now }
{
    has_all(ones, others) && has_all(others, ones)
}
