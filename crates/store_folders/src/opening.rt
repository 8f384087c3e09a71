//! The files of a store are opened and made.

ghost use Rattle.std.specs.Prelude.{IfOk, IfSome};
ghost use Rattle.store_folders.specs.Files.{IsEmpty, IsRead};

use crate::fault::StoreFault;
use crate::folders::Folders;
use crate::naming::FileName;
use disk_file::{DiskFile, OpenError, Opened};

/// Why a folder wasn't opened or read, as a fault of its store.
pub(crate) fn of_folder(error: OpenError) -> StoreFault {
    match error {
        OpenError::OutOfMemory => StoreFault::NoMemory,
        _ => StoreFault::Folder(error),
    }
}

/// Why a file wasn't opened, made or removed, as a fault of its store.
fn of_file(file: FileName, error: OpenError) -> StoreFault {
    match error {
        OpenError::OutOfMemory => StoreFault::NoMemory,
        _ => StoreFault::File { file, error },
    }
}

/// Opens a file of a store, and reads it. `None` if it isn't there.
pub(crate) fn open_file(
    rt: &HostRuntime,
    folders: &Folders,
    file: FileName,
) -> Result<Option<Opened>, StoreFault>
    ensures { IfOk result (λ o. IfSome o IsRead) }
{
    let Ok(name) = file.text(rt.alloc()) else {
        return Err(StoreFault::NoMemory);
    };
    match folders.of(file).open_file(rt, name.as_str()) {
        Ok(opened) => Ok(Some(opened)),
        Err(OpenError::Missing) => Ok(None),
        Err(error) => Err(of_file(file, error)),
    }
}

/// Makes an empty file in the place of one that the registry doesn't name, if that is there.
pub(crate) fn make_file(
    rt: &HostRuntime,
    folders: &Folders,
    file: FileName,
) -> Result<DiskFile, StoreFault>
    ensures { IfOk result IsEmpty }
{
    let Ok(name) = file.text(rt.alloc()) else {
        return Err(StoreFault::NoMemory);
    };
    match folders.of(file).remove_file(rt, name.as_str()) {
        Ok(()) | Err(OpenError::Missing) => {}
        Err(error) => return Err(of_file(file, error)),
    }
    match folders.of(file).make_file(rt, name.as_str()) {
        Ok(made) => Ok(made),
        Err(error) => Err(of_file(file, error)),
    }
}
