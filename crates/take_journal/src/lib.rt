//! A journal of texts in a file, each on the disk before it is acknowledged.
//!
//! `Device` is a file on a disk: what a read returns, and what a crash may leave at any moment. A `Journal` over it has
//! its texts in frames (`specs/Frames.antt`). `append` and `append_all` promise that a crash at any moment leaves all
//! of the new texts or none, and all of them once the call was answered Ok. `open` reads what a crash left, mends its
//! end, and names a file damaged only if no crash can have left it (`specs/Crash.antt`). A journal whose device failed
//! is closed, and asks nothing more of it. `MemoryDevice` is a device for tests, which stops at a call and leaves the
//! last write torn.
#![tactic(auto)]

mod device;
mod fault;
mod frames;
mod journal;
mod memory;
mod opening;

pub use device::{Device, DeviceFailed};
pub use fault::{JournalFault, OpenFault};
pub use journal::Journal;
pub use memory::{MemoryDevice, Tear};
pub use opening::VERSION;
