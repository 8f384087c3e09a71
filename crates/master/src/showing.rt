//! What a master shows of itself and of its fleet.

ghost use Rattle.std.specs.Prelude.{◌≡◌, IfOk, IsSome, OnErr, length, nat_lt};
ghost use Rattle.std.specs.Option.{option_map};
ghost use Rattle.entry.specs.Text.{text_of};
ghost use Rattle.log_head.specs.Head.{digest_of};
ghost use Rattle.master_core.specs.master_state.Budget.{free_seglets, used_seglets};
ghost use Rattle.master_core.specs.master_state.Log.{image_of};
ghost use Rattle.replica.specs.Picture.{AreLabelsOf, left_on};
ghost use Rattle.master.specs.Shown.{IsShown, NeedsMemory};
ghost use Rattle.master.specs.World.{world};

use crate::master::Master;
use entry::{NoMemory, Row, Size};
use master_core::sorted_sizes;
use replica::{Fleet, Labels, add_labels};
use std::alloc::Global;

/// What is to be shown of a master.
#[derive(Clone, Copy)]
pub enum Look {
    /// The ids of the digest in force.
    Digest,
    /// How many seglets of memory are counted, and how many are free.
    Room,
    /// The image of a segment.
    Image(u64),
    /// The sizes of the live objects.
    Sizes,
    /// What the configuration's backups hold, of all masters.
    Holdings,
}

/// What is shown of a master.
#[derive(Drop)]
pub enum Shown {
    /// The ids of the digest in force, in order.
    Digest(Row<u64>),
    /// The seglets of memory that are counted, and those that are free.
    Room(u64, u64),
    /// The bytes of the image, or `None` if there is no such image.
    Image(Option<Row<u8>>),
    /// The sizes of the live objects, by table, then by place. Each is the length of the object's entry.
    Sizes(Row<Size>),
    /// The replicas without their bytes, backup by backup.
    Holdings(Labels),
}

impl<F: Fleet> Master<F> {
    /// How many seglets of memory are free.
    pub fn free_seglets(&self) -> u64
        ensures { result ≡ free_seglets self.now.knows }
    {
        self.core.free()
    }

    /// How many ids the digest in force lists.
    pub fn digest_len(&self) -> u64
        ensures { result ≡ length (digest_of self.now.knows.head.image) }
    {
        self.core.digest_len()
    }

    /// Returns the ids of the digest in force, in order.
    pub fn digest(&self) -> Result<Row<u64>, NoMemory>
        ensures { IfOk result (λ ids. ids ≡ digest_of self.now.knows.head.image) }
    {
        self.core.digest()
    }

    /// Returns a copy of the bytes of a segment's image, or `None` if there is no image with this id.
    pub fn image(&self, id: u64) -> Result<Option<Row<u8>>, NoMemory>
        ensures image { IfOk result (λ image. image ≡ option_map text_of (image_of self.now.knows id)) }
        ensures refused { OnErr result (IsSome (image_of self.now.knows id)) }
    {
        self.core.bytes_of(id)
    }

    /// Returns how many seglets of memory are counted as used.
    pub fn used_seglets(&self) -> u64
        ensures { result ≡ used_seglets self.now.knows }
    {
        self.core.used()
    }

    /// Shows what the look asks for. Nothing changes.
    pub fn look(&self, look: Look) -> Result<Shown, NoMemory>
        ensures shown { IfOk result (λ shown. IsShown (world F.state self.now) look shown) }
        ensures refused { OnErr result (NeedsMemory self.now.knows look) }
    {
        match look {
            Look::Digest => Ok(Shown::Digest(self.core.digest()?)),
            Look::Room => Ok(Shown::Room(self.core.used(), self.core.free())),
            Look::Image(id) => Ok(Shown::Image(self.core.bytes_of(id)?)),
            Look::Sizes => Ok(Shown::Sizes(Row::new(sorted_sizes(&self.core)?))),
            Look::Holdings => {
                let backups = self.core.backups();
                Ok(Shown::Holdings(labels(self.alloc, &self.fleet, backups)?))
            }
        }
    }
}

/// The labels of all replicas that the first backups hold, backup by backup.
fn labels<F: Fleet>(alloc: Global, fleet: &F, backups: u64) -> Result<Labels, NoMemory>
    ensures { IfOk result (AreLabelsOf (left_on (λ b. nat_lt b backups) (F.state fleet.now).picture)) }
{
    let mut list = Vec::new(alloc);
    for backup in 0..backups {
        let holdings = fleet.holdings(alloc, backup)?;
        add_labels(&mut list, holdings.as_slice())?;
    }
    Ok(Labels::new(list))
}
