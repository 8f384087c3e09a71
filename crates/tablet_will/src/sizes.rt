//! Which sizes fit the tablets.

ghost use Rattle.std.specs.Prelude.{◌≡◌};
ghost use Rattle.std.specs.List.{list_all};
ghost use Rattle.tablet_will.specs.Order.{is_up_to};
ghost use Rattle.tablet_will.specs.Parts.{is_in_tablet, is_in_one};
ghost use Rattle.tablet_will.specs.Sizes.{are_in_order, are_sizes};

use entry::{Size, Tablet};

fn is_in_tablet(tablet: &Tablet, table: u64, place: u64) -> bool
    ensures { result ≡ is_in_tablet tablet.now table place }
{
    tablet.table == table && tablet.first <= place && place <= tablet.last
}

fn is_in_one(tablets: &[Tablet], size: &Size) -> bool
    ensures { result ≡ is_in_one tablets.now size.now.table size.now.place }
{
    let (table, place) = (size.table, size.place);
    tablets
        .iter()
        .any(|tablet| is_in_tablet(tablet, table, place))
}

/// Returns true if the place of each size is in a tablet.
fn are_in_tablets(tablets: &[Tablet], sizes: &[Size]) -> bool
    ensures { result ≡ list_all (λ s. is_in_one tablets.now s.table s.place) sizes.now }
{
    sizes.iter().all(|size| is_in_one(tablets, size))
}

/// Returns true if the place of the size comes before that of the other, or is the same.
fn is_up_to(size: &Size, other: &Size) -> bool
    ensures { result ≡ is_up_to size.now.table size.now.place other.now.table other.now.place }
{
    size.table < other.table || (size.table == other.table && size.place <= other.place)
}

/// Returns true if the sizes are sorted by table, then by place.
fn are_in_order(sizes: &[Size]) -> bool
    ensures { result ≡ are_in_order sizes.now }
{
    for i in 1..sizes.len() {
        if !is_up_to(&sizes[i - 1], &sizes[i]) {
            return false;
        }
    }
    true
}

/// Returns true if the sizes are sorted, and the place of each is in a tablet.
pub(crate) fn are_sizes(tablets: &[Tablet], sizes: &[Size]) -> bool
    ensures { result ≡ are_sizes tablets.now sizes.now }
{
    are_in_order(sizes) && are_in_tablets(tablets, sizes)
}
