//! The replicas that backups show.

use crate::bytes::Bytes;
use entry::Row;

/// A replica that a backup shows. Its bytes are the backup's, and are not copied.
#[derive(Drop)]
pub struct Holding<'a> {
    pub backup: u64,
    pub master: u64,
    pub segment: u64,
    pub bytes: Bytes<'a>,
    pub is_open: bool,
}

/// The replicas that some backups show.
pub type Inventory<'a> = Row<Holding<'a>>;
