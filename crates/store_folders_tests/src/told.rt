//! The numbers and texts of faults.

use disk_file::OpenError;
use file_backup::BackupFault;
use registry_file::RegistryFault;
use std::alloc::Global;
use store_folders::{FileName, StoreFault};

/// A fault, its number and its text.
type Row = (StoreFault, u8, &'static str);

const JOURNAL: FileName = FileName::Journal { backup: 3, id: 12 };

const ROWS: &[Row] = &[
    (
        StoreFault::Folder(OpenError::Missing),
        1,
        "folder: it isn't there",
    ),
    (
        StoreFault::Folder(OpenError::OtherKind("folder")),
        1,
        "folder: it isn't a folder",
    ),
    (StoreFault::InUse, 2, "another process has the folder"),
    (
        StoreFault::Registry(RegistryFault::Damaged(9)),
        3,
        "registry: the file is damaged at byte 9",
    ),
    (
        StoreFault::NoRegistry,
        3,
        "registry: it is gone, and files of backups are there",
    ),
    (
        StoreFault::OtherOption(1),
        4,
        "option replicas differs from the store's",
    ),
    (
        StoreFault::OtherOption(10),
        4,
        "option live differs from the store's",
    ),
    (
        StoreFault::OtherOption(11),
        4,
        "option dir differs from the store's",
    ),
    (
        StoreFault::Journal {
            file: JOURNAL,
            fault: BackupFault::WrongFrame(4),
        },
        5,
        "backup-3-12: frame 4 does not fit",
    ),
    (
        StoreFault::Foreign(JOURNAL),
        5,
        "backup-3-12: it is another journal",
    ),
    (
        StoreFault::File {
            file: FileName::Registry,
            error: OpenError::OtherKind("file"),
        },
        6,
        "registry: it isn't a file",
    ),
    (StoreFault::Disk(JOURNAL), 6, "backup-3-12: the disk failed"),
    (StoreFault::NoMemory, 7, "no memory"),
];

/// Whether a fault has this number and this text.
fn is_told(alloc: Global, fault: &StoreFault, number: u8, text: &str) -> bool {
    match format!(in alloc; "{fault}") {
        Ok(told) => told.as_str() == text && fault.number() == number,
        Err(_) => false,
    }
}

/// The first row that isn't so.
fn first_other(alloc: Global) -> Option<usize> {
    for i in 0..ROWS.len() {
        let (fault, number, text) = &ROWS[i];
        if !is_told(alloc, fault, *number, text) {
            return Some(i);
        }
    }
    None
}

#[test]
fn each_fault_has_its_number_and_text(rt: HostRuntime) {
    assert_eq!(rt; first_other(rt.alloc()), None);
}
