//! Lists of objects. A list is one text: the spellings of its objects, one after the other.
//!
//! A list keeps all spellings in one block of memory, and reads each object that it hands out from this block. A
//! contract sees the objects as a list. The crate stands on `entry`, which spells and reads objects.
#![tactic(auto)]

mod iter;
mod list;
mod reading;

pub use iter::ObjectsIn;
pub use list::ObjectList;
