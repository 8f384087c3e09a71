//! A pass of a cleaner copies the kept entries of some segments, its victims, to new segments, the survivors.
//!
//! The kept entries fill the survivors in order (`specs/Filling.antt`). The survivors are counted once, when the pass
//! begins (`fit`). They are enough, whatever entries die before they are copied (`rest_fits`). Each step treats one
//! object or tombstone. `specs/Passes.antt` says which places a pass still has to treat, and what a step does to the
//! images and the index. Then the survivors are sealed, one after the other (*next_seal*), until each has all its
//! replicas (`specs/Seals.antt`). `PassFault` says why a pass is refused.
#![tactic(auto)]

mod ahead;
mod fault;
mod filling;
mod fitting;
mod laws;
mod level;
mod pass;
mod survivors;
mod treating;
mod walking;

pub use ahead::{Ahead, Seen};
pub use fault::PassFault;
pub use filling::fill;
pub use fitting::{MAX_SURVIVORS, MAX_VICTIMS, PassSize, fit};
pub use laws::{rest_fits, rests_agree, seals_in_order, survivors_are_counted};
pub use level::Level;
pub use pass::{Copied, Cursor, Pass};
pub use survivors::Survivors;
