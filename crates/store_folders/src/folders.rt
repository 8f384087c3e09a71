//! The folders of a store.

ghost use Rattle.std.specs.Prelude.{◌≡◌, ◌+◌, length};

use crate::fault::StoreFault;
use crate::naming::{FileName, JOURNALS};
use crate::opening::of_folder;
use disk_file::{Folder, OpenError};

/// The folders of a store. No other process has one of them as long as this lives.
///
/// The first one has the registry. The files of the backups lie in all of them by turns: of n folders, folder b mod n
/// has that of backup b. So with a folder on each disk, a disk that is lost is some backups that are lost.
#[derive(Drop)]
pub struct Folders {
    first: Folder,
    others: Vec<Folder>,
}

/// Opens a folder that is there, and locks it.
fn open_one(rt: &HostRuntime, path: &str) -> Result<Folder, StoreFault> {
    match Folder::open(rt, path) {
        Ok(folder) => Ok(folder),
        Err(OpenError::InUse) => Err(StoreFault::InUse),
        Err(error) => Err(of_folder(error)),
    }
}

impl Folders {
    /// Opens folders that are there, and locks them. It doesn't wait for a lock. A path that stands twice is in use.
    /// The fault is one of 1, 2 and 7.
    pub fn open(rt: &HostRuntime, first: &str, others: &[&str]) -> Result<Folders, StoreFault> {
        let mut opened = Folders {
            first: open_one(rt, first)?,
            others: Vec::new(rt.alloc()),
        };
        for path in others {
            if opened.others.push(open_one(rt, path)?).is_err() {
                return Err(StoreFault::NoMemory);
            }
        }
        Ok(opened)
    }

    /// How many folders there are.
    pub fn count(&self) -> u64
        ensures { result ≡ length self.now.others.items + 1 }
    {
        self.others.len() as u64 + 1
    }

    /// The folder that has the file of this name.
    pub(crate) fn of(&self, file: FileName) -> &Folder {
        let at = match file {
            FileName::Registry => 0,
            FileName::Journal { backup, .. } => backup % self.count(),
        };
        match self.others.as_slice().get((at as usize).wrapping_sub(1)) {
            Some(folder) => folder,
            None => &self.first,
        }
    }

    /// Whether a file in them has the name of a journal.
    pub(crate) fn have_journals(&self, rt: &HostRuntime) -> Result<bool, OpenError> {
        if self.first.has_name(rt, JOURNALS)? {
            return Ok(true);
        }
        for folder in self.others.as_slice() {
            if folder.has_name(rt, JOURNALS)? {
                return Ok(true);
            }
        }
        Ok(false)
    }
}
