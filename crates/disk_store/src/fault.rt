//! Why a folder wasn't opened as a store.

use embedded::recovery::RecoveryFault;
use file_store::NotStarted;
use replica::TakeFault;
use store_folders::StoreFault;

/// Why a folder wasn't opened as a store. What the last life left is there still, and the next call recovers it.
#[derive(Drop)]
pub enum NotOpened {
    /// The folder or a file in it. `StoreFault::number` tells which.
    Files(StoreFault),
    /// Nothing could be rebuilt of what the files hold. The fault names the head or the segment that is lost, or says
    /// that memory ran out. Nothing of the store has changed but torn ends.
    NotRecovered(RecoveryFault),
    /// The table was found, and no master began with it.
    NotStarted(NotStarted),
    /// The next master has the table, and a backup failed as it freed what the last one left. The next call recovers
    /// this master.
    NotFreed(TakeFault),
}

impl From<StoreFault> for NotOpened {
    fn from(fault: StoreFault) -> NotOpened {
        NotOpened::Files(fault)
    }
}

impl From<NotStarted> for NotOpened {
    fn from(fault: NotStarted) -> NotOpened {
        NotOpened::NotStarted(fault)
    }
}
