//! How a core gets memory back from its log. The functions of this crate hand no op to the fleet.
//!
//! `compact_segment` replaces the image of a closed segment by its kept entries. `begin_clean` begins a pass. A pass
//! copies the kept entries of some segments, its victims, into new segments, its survivors (`copy`), and hands these to
//! backups (`seal_op`). The roll that begins when the pass is ready commits it (`master_rolls`). `choose` says which
//! victims the next pass takes, and `next_step` which step a cleaner takes next (`specs/Choosing.antt`). `sorted_sizes`
//! lists the sizes of the live objects, and `sorted_objects` the live objects of a table (`specs/Objects.antt`).
#![tactic(auto)]

mod candidates;
mod choosing;
mod cleaning;
mod compacting;
mod copying;
mod counts;
mod filling;
mod keeping;
mod objects;
mod pending;
mod sizes;
mod victims;

pub use choosing::{choose, next_step};
pub use cleaning::{begin_clean, copy, freed, seal_op, sealed, to_free, to_seal};
pub use compacting::compact_segment;
pub use counts::{image_len_of, kept_bytes_of, opening_len_of, recount, tallies_of, tally_of};
pub use object_list::ObjectList;
pub use objects::sorted_objects;
pub use pending::{is_copying, pending_step};
pub use sizes::sorted_sizes;
