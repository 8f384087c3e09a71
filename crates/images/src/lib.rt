//! Images of segments in memory: a map from segment numbers to segments, with the sum of the seglets that they count.
//!
//! Memory is counted in seglets. An image that still takes appends counts the seglets of a whole segment. Each other
//! image counts its length in seglets, rounded up. An image that takes appends has memory for a whole segment, so no
//! append or copy takes more (*HaveMemory*). `specs/Images.antt` says what is counted, and `specs/Sorted.antt` says how
//! images are found. The counted seglets are an upper bound of the bytes of all texts. They are no upper bound of the
//! memory: a trimmed image may keep a little more, and no clause says that `shrink_to` shrinks a vector.
#![tactic(auto)]

mod copying;
mod counting;
mod fault;
mod hints;
mod image;
mod images;
mod laws;
mod placing;
mod replica_counts;
mod spares;

pub use fault::ImagesFault;
pub use image::Image;
pub use images::Images;
pub use laws::{images_are_added, images_are_found, images_stay_in_order};
