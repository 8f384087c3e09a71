//! How the places of a bucket are divided between it and a new bucket.

ghost use Rattle.std.specs.Prelude.{◌≡◌, ◌<◌, ◌^◌, ◌∷◌, ◌++◌, [], List, IfOk, OnOk};
ghost use Rattle.places.specs.declared.place.Held.{Held as HeldValue};
ghost use Rattle.hash_index.specs.Buckets.{Divides};

use crate::address::bucket_at;
use crate::bucket::Bucket;
use entry::NoMemory;
use places::Held;
use std::alloc::Global;

/// The two parts of a divided bucket: the places that stay, and the places that go to the new bucket.
#[derive(Drop)]
pub(crate) struct Halves {
    pub(crate) stays: Bucket,
    pub(crate) goes: Bucket,
}

/// Adds a place to one of the parts: to `goes` if its hash belongs to the new bucket, which is number `count`, and
/// else to `stays`.
fn deal(held: Held, count: usize, to: &mut Halves, alloc: Global) -> Result<(), NoMemory>
    requires { count < 2 ^ 63 }
    ensures { (start : List HeldValue) → Divides count start to.old.stays to.old.goes
        → OnOk result (Divides count (start ++ held ∷ []) to.new.stays to.new.goes) }
{
    if bucket_at(count + 1, held.hash) == count {
        to.goes.push(held, alloc)
    } else {
        to.stays.push(held, alloc)
    }
}

/// Adds each of these places to its part, as `deal` does.
fn deal_all(places: &[Held], count: usize, to: &mut Halves, alloc: Global) -> Result<(), NoMemory>
    requires { count < 2 ^ 63 }
    ensures { (start : List HeldValue) → Divides count start to.old.stays to.old.goes
        → OnOk result (Divides count (start ++ places.now) to.new.stays to.new.goes) }
{
    for held in places {
        deal(*held, count, to, alloc)?;
    }
    Ok(())
}

/// Returns the places of a bucket, divided between it and the new bucket, which is number `count`. The bucket itself
/// doesn't change, and no key is read.
pub(crate) fn divided(bucket: &Bucket, count: usize, alloc: Global) -> Result<Halves, NoMemory>
    requires { count < 2 ^ 63 }
    ensures { IfOk result (λ parts. Divides count bucket.now parts.stays parts.goes) }
{
    let mut parts = Halves {
        stays: Bucket::new(),
        goes: Bucket::new(),
    };
    let (near, overflow) = bucket.parts();
    let places = near.places();
    deal_all(places.as_slice(), count, &mut parts, alloc)?;
    deal_all(overflow.as_slice(), count, &mut parts, alloc)?;
    Ok(parts)
}
