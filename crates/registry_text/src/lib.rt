//! The texts of a registry: the first names the store, and each other one is a record.
//!
//! `write_fleet` and `write_record` spell them, and `read_fleet` and `read_record` read them. Both ways are exact: what
//! was written is read back (`one_record`), and no other bytes are read as the same (`one_text`).
//! `specs/RecordText.antt` has the format.
#![tactic(auto)]

mod laws;
mod reading;
mod record;
mod writing;

pub use laws::{are_short, one_record, one_text};
pub use reading::{read_fleet, read_record};
pub use record::{ALL_FRAMES, Fleet, LOST, Record};
pub use writing::{write_fleet, write_record};
