//! Where a place is among ordered replicas.

ghost use Rattle.std.specs.Prelude.{◌≡◌, true, length, IfOk, IfErr};
ghost use Rattle.backup.specs.Slots.{AreOrdered, IsAt, IsGapFor};

use crate::stored::Stored;

/// A replica behind the numbers of its master and its segment.
pub(crate) type Slot = ((u64, u64), Stored);

/// Whether the replica of this index is at a place.
pub(crate) fn is_at(slots: &[Slot], at: usize, place: (u64, u64)) -> bool
    ensures { result ≡ true → IsAt slots.now place at }
{
    at < slots.len() && slots[at].0 == place
}

/// Whether a place is above those of all replicas. New places mostly are.
fn is_past(slots: &[Slot], place: (u64, u64)) -> bool
    requires { AreOrdered slots.now }
    ensures { result ≡ true → IsGapFor slots.now place (length slots.now) }
{
    match slots.last() {
        Some(slot) => slot.0.cmp(&place).is_lt(),
        None => true,
    }
}

/// Which replica is at a place. If there is none, which one it would be.
pub(crate) fn place_among(slots: &[Slot], place: (u64, u64)) -> Result<usize, usize>
    requires { AreOrdered slots.now }
    ensures found { IfOk result (IsAt slots.now place) }
    ensures absent { IfErr result (IsGapFor slots.now place) }
{
    if is_past(slots, place) {
        return Err(slots.len());
    }
    slots.binary_search_by_key(&place, |slot| slot.0)
}
