//! The names of a store's files.

use std::alloc::{AllocError, Global};
use std::fmt;

/// What the names of all journals begin with.
pub(crate) const JOURNALS: &str = "backup-";

/// The name of a file of a store.
#[derive(Clone, Copy, Debug)]
pub enum FileName {
    Registry,
    /// The file with this id, as a backup's journal.
    Journal { backup: u64, id: u64 },
}

impl fmt::Display for FileName {
    fn fmt<W: fmt::Write>(&self, f: &mut fmt::Formatter<W>) -> fmt::Result {
        match self {
            FileName::Registry => write!(f, "registry"),
            FileName::Journal { backup, id } => write!(f, "backup-{backup}-{id}"),
        }
    }
}

impl FileName {
    /// The name as a text.
    pub(crate) fn text(self, alloc: Global) -> Result<String, AllocError> {
        format!(in alloc; "{self}")
    }
}
