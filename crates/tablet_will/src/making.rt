//! How a will is made.

ghost use Rattle.std.specs.Prelude.{◌≡◌, ◌↔◌, true, false, IfOk, IsErrOf};
ghost use Rattle.entry.specs.Tablet.{are_tablets};
ghost use Rattle.tablet_will.specs.Parts.{Divides};
ghost use Rattle.tablet_will.specs.Rule.{parts_by_rule};
ghost use Rattle.tablet_will.specs.Sizes.{are_limits, are_sizes};

use crate::cutting::parts_of;
use crate::fault::WillFault;
use crate::group::starts_of;
use crate::sizes::are_sizes;
use crate::will::Will;
use entry::{Size, Tablet, are_tablets};
use std::alloc::Global;

/// Makes the will that cuts the tablets by the sizes of the objects in them. A partition has at most `max_bytes` bytes
/// and `max_objects` objects, apart from two cases. A place is never cut, so a partition whose objects are all at one
/// place may have more. There are at most 4,294,967,295 partitions, and the last of so many may have more. Both limits
/// must be at least 1.
pub fn make_will(
    alloc: Global,
    tablets: &[Tablet],
    sizes: &[Size],
    max_bytes: u64,
    max_objects: u64,
) -> Result<Will, WillFault>
    ensures rule { IfOk result (λ will. will ≡ parts_by_rule max_bytes max_objects tablets.now sizes.now) }
    ensures divides { IfOk result (λ will. Divides tablets.now will) }
    ensures bad_tablets { IsErrOf result WillFault.BadTablets ↔ (are_tablets tablets.now ≡ false) }
    ensures bad_limits { IsErrOf result WillFault.BadLimits ↔
        ((are_tablets tablets.now ≡ true) × (are_limits max_bytes max_objects ≡ false)) }
    ensures stray_size { IsErrOf result WillFault.StraySize ↔ ((are_tablets tablets.now ≡ true)
        × (are_limits max_bytes max_objects ≡ true) × (are_sizes tablets.now sizes.now ≡ false)) }
{
    if !are_tablets(tablets) {
        return Err(WillFault::BadTablets);
    }
    if max_bytes == 0 || max_objects == 0 {
        return Err(WillFault::BadLimits);
    }
    if !are_sizes(tablets, sizes) {
        return Err(WillFault::StraySize);
    }
    let starts = starts_of(alloc, sizes, max_bytes, max_objects)?;
    let parts = parts_of(alloc, tablets, starts.as_slice())?;
    Ok(Will::new(parts))
}
