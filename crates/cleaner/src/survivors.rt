//! The survivors of a pass, and which of them is sealed next.

ghost use Rattle.std.specs.Prelude.{◌≡◌, ◌+◌, ◌<◌};
ghost use Rattle.compactor.specs.Kept.{has_id};
ghost use Rattle.cleaner.specs.Passes.{survivor_ids, AreIds};
ghost use Rattle.cleaner.specs.Seals.{first_lacking};

use images::Images;

/// The segments to which a pass copies. Their ids follow one another.
#[derive(Clone, Copy)]
pub struct Survivors {
    /// The id of the first survivor.
    pub first: u64,
    /// How many survivors there are.
    pub count: usize,
}

impl Survivors {
    /// Returns the id of a survivor. The first survivor has place 0.
    #[inline(always)]
    pub fn id(self, place: usize) -> u64
        requires ids { AreIds self }
        requires there { place < self.count }
        ensures { result ≡ self.first + place }
    {
        self.first + place as u64
    }

    /// Returns true if the segment with this id is a survivor.
    pub fn has(self, id: u64) -> bool
        ensures { result ≡ has_id (survivor_ids self) id }
    {
        self.first <= id && id - self.first < self.count as u64
    }
}

/// Returns the first survivor that has fewer than `replicas` replicas: its id, and how many it has. Returns `None` if
/// there is none.
pub(crate) fn first_lacking(
    survivors: Survivors,
    replicas: usize,
    images: &Images,
) -> Option<(u64, usize)>
    requires { AreIds survivors }
    ensures { result ≡ first_lacking replicas images.now.images (survivor_ids survivors) }
{
    if survivors.count == 0 {
        return None;
    }
    let sealed = images.replicas(survivors.first);
    if sealed < replicas {
        return Some((survivors.first, sealed));
    }
    let others = Survivors {
        first: survivors.first + 1,
        count: survivors.count - 1,
    };
    first_lacking(others, replicas, images)
}
