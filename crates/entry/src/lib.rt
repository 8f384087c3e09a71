//! The entries of a log, and their format: which bytes each entry has (its spelling), and how a reader reads it.
#![tactic(auto)]

mod digest;
mod entry;
mod fault;
mod key;
mod kind;
mod laws;
mod limits;
mod owning;
mod reading;
mod row;
mod short_bytes;
mod tablet;
mod view;
mod writing;

pub use digest::{Digest, Lengths, Listed};
pub use entry::{Entry, Header, Object, Role, Tombstone};
pub use fault::{EntryFault, KeyFault, NoMemory};
pub use key::{Key, KeyBytes, MAX_KEY_LEN, place};
pub use kind::{DIGEST_LEN, HEADER_LEN, OBJECT_LEN, SAFE_LEN, TOMBSTONE_LEN};
pub use laws::{one_reading, one_spelling, one_tablet};
pub use limits::{Ids, MAX_SEGMENT_ID, MAX_VALUE_LEN, SafeVersion, Value, Version};
pub use reading::read_entry;
pub use row::Row;
pub use tablet::{Size, Tablet, Tablets, are_tablets};
pub use view::{DigestRef, EntryRef, KeyRef, ObjectRef, TombstoneRef};
pub use writing::write_entry;
