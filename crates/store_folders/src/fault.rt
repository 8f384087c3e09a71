//! Why a store in a folder wasn't opened.

ghost use Rattle.std.specs.Prelude.{◌≡◌};
ghost use Rattle.store_folders.specs.Faults.{number_of, of_journal, of_registry};

use crate::naming::FileName;
use crate::options::option_name;
use disk_file::OpenError;
use file_backup::BackupFault;
use registry_file::RegistryFault;
use thiserror::Error;

/// Why a store in a folder wasn't opened. Unless the disk failed, nothing of the store has changed but torn ends.
#[derive(Debug, Drop, Error)]
pub enum StoreFault {
    /// 1: The folder isn't there, is no folder, or may not be opened or read.
    #[error("folder: {0}")]
    Folder(OpenError),
    /// 2: Another process has the folder locked, or another part of this one.
    #[error("another process has the folder")]
    InUse,
    /// 3: The registry is damaged, or it isn't one of this version.
    #[error("registry: {0}")]
    Registry(RegistryFault),
    /// 3: There is no registry, but journals are there.
    #[error("registry: it is gone, and files of backups are there")]
    NoRegistry,
    /// 4: The store was made with another option of this number. `OPTIONS` has the names.
    #[error("option {} differs from the store's", option_name(*.0))]
    OtherOption(usize),
    /// 5: The file that the registry names as a backup's journal is damaged, or of another version.
    #[error("{file}: {fault}")]
    Journal { file: FileName, fault: BackupFault },
    /// 5: It is the journal of another store, of another backup, or of another id.
    #[error("{0}: it is another journal")]
    Foreign(FileName),
    /// 6: A file wasn't opened, made or removed.
    #[error("{file}: {error}")]
    File { file: FileName, error: OpenError },
    /// 6: The disk failed at this file.
    #[error("{0}: the disk failed")]
    Disk(FileName),
    /// 7: Memory ran out. Or a backup's file has no next id or no next frame, or there are 2^16 options.
    #[error("no memory")]
    NoMemory,
}

impl StoreFault {
    /// The number of the fault, from 1 to 7.
    pub fn number(&self) -> u8
        ensures { result ≡ number_of self.now }
    {
        match self {
            StoreFault::Folder(_) => 1,
            StoreFault::InUse => 2,
            StoreFault::Registry(_) | StoreFault::NoRegistry => 3,
            StoreFault::OtherOption(_) => 4,
            StoreFault::Journal { .. } | StoreFault::Foreign(_) => 5,
            StoreFault::File { .. } | StoreFault::Disk(_) => 6,
            StoreFault::NoMemory => 7,
        }
    }
}

/// Why the registry wasn't opened or made, as a fault of its store.
pub(crate) fn of_registry(fault: RegistryFault) -> StoreFault
    ensures { result ≡ of_registry fault }
{
    match fault {
        RegistryFault::NoMemory => StoreFault::NoMemory,
        RegistryFault::Failed => StoreFault::Disk(FileName::Registry),
        _ => StoreFault::Registry(fault),
    }
}

/// Why a journal wasn't opened or made, as a fault of its store.
pub(crate) fn of_journal(file: FileName, fault: BackupFault) -> StoreFault
    ensures { result ≡ of_journal file fault }
{
    match fault {
        BackupFault::NoMemory => StoreFault::NoMemory,
        BackupFault::Failed => StoreFault::Disk(file),
        _ => StoreFault::Journal { file, fault },
    }
}
