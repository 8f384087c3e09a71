//! How tablets are cut.

ghost use Rattle.std.specs.Prelude.{◌≡◌, ◌≤◌, ◌++◌, length, OnOk, IfOk};
ghost use Rattle.std.specs.List.{flat_map};
ghost use Rattle.entry.specs.Tablet.{is_tablet};
ghost use Rattle.tablet_will.specs.Rule.{cut};
ghost use Rattle.tablet_will.specs.Starts.{AreRising};

use crate::group::Start;
use crate::part::Part;
use entry::{NoMemory, Tablet};
use std::alloc::Global;

impl Start {
    ghost use Rattle.std.specs.Prelude.{◌≡◌};
    ghost use Rattle.tablet_will.specs.Order.{is_up_to};

    /// Returns true if the partition begins at the place or before it.
    fn is_up_to(&self, table: u64, place: u64) -> bool
        ensures { result ≡ is_up_to self.now.table self.now.place table place }
    {
        self.table < table || (self.table == table && self.place <= place)
    }
}

/// Appends the parts of a tablet to `parts`. The tablet is cut wherever a partition begins inside it.
fn cut(tablet: &Tablet, starts: &[Start], parts: &mut Vec<Part>) -> Result<(), NoMemory>
    requires rising { AreRising starts.now }
    requires limit { length starts.now ≤ 4294967294 }
    ensures { OnOk result (parts.new.items ≡ parts.old.items ++ cut 0 tablet.now starts.now) }
{
    let (table, last) = (tablet.table, tablet.last);
    let mut first = tablet.first;
    let mut number = starts.partition_point(|start| start.is_up_to(table, first));
    while number < starts.len() && starts[number].is_up_to(table, last) {
        let place = starts[number].place;
        parts.push(Part {
            table,
            first,
            last: place - 1,
            partition: number as u32,
        })?;
        first = place;
        number += 1;
    }
    parts.push(Part {
        table,
        first,
        last,
        partition: number as u32,
    })?;
    Ok(())
}

/// Returns the parts of all tablets, in order.
pub(crate) fn parts_of(
    alloc: Global,
    tablets: &[Tablet],
    starts: &[Start],
) -> Result<Vec<Part>, NoMemory>
    requires rising { AreRising starts.now }
    requires limit { length starts.now ≤ 4294967294 }
    ensures { IfOk result (λ parts. parts.items ≡ flat_map (λ t. cut 0 t starts.now) tablets.now) }
{
    let mut parts = Vec::with_capacity(alloc, tablets.len())?;
    for tablet in tablets {
        cut(tablet, starts, &mut parts)?;
    }
    Ok(parts)
}
