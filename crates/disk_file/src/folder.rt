//! A folder of files that no other process has.

ghost use Rattle.std.specs.Prelude.{◌≡◌, [], ◌∷◌, false, IfOk, OnOk};
ghost use Rattle.take_journal.specs.Device.{LeavesJust};
ghost use Rattle.disk_file.specs.Events.{FolderSynced, Synced};
ghost use Rattle.disk_file.specs.Noted.{events_of};
ghost use Rattle.disk_file.specs.Disk.{contents, has_failed, may_leave};

use crate::disk::DiskFile;
use crate::error::OpenError;
use crate::history::Call;
use crate::noted::Noted;
use std::alloc::AllocError;
use std::fs::{File, TryLockError, read_dir, remove_file};
use std::io;

/// A folder that is locked: as long as it lives, no other process has it.
#[derive(Drop)]
pub struct Folder {
    file: File,
    path: String,
}

/// A file that was there: what it holds, and the device.
#[derive(Drop)]
pub struct Opened {
    pub bytes: Vec<u8>,
    pub file: DiskFile,
}

impl Folder {
    /// Opens a folder that is there, and locks it. It doesn't wait for a lock: `InUse` if another process has it, or if
    /// this one has it already.
    pub fn open(rt: &HostRuntime, path: &str) -> Result<Folder, OpenError> {
        let file = File::open(rt, path)?;
        if !file.metadata()?.is_dir() {
            return Err(OpenError::OtherKind("folder"));
        }
        match file.try_lock() {
            Ok(()) => {}
            Err(TryLockError::WouldBlock) => return Err(OpenError::InUse),
            Err(TryLockError::Error(error)) => return Err(error.into()),
        }
        let path = String::from_str(rt.alloc(), path)?;
        Ok(Folder { file, path })
    }

    /// Makes an empty file, whose name is on the disk when this returns. `Present` if the name is taken.
    pub fn make_file(&self, rt: &HostRuntime, name: &str) -> Result<DiskFile, OpenError>
        ensures empty { IfOk result (λ f. contents f ≡ []) }
        ensures durable { IfOk result (λ f. LeavesJust [] (may_leave f)) }
        ensures unfailed { IfOk result (λ f. has_failed f ≡ false) }
    {
        let path = self.path_of(rt, name)?;
        let mut noted = Noted::make(rt, path.as_str())?;
        self.settle(&mut noted)?;
        Ok(DiskFile::new(noted))
    }

    /// Opens a file that is there. It is put on the disk as it is, with its name, and is then read.
    /// `Missing` if there is none. This takes two syncs and one read of the whole file, and memory of its length.
    pub fn open_file(&self, rt: &HostRuntime, name: &str) -> Result<Opened, OpenError>
        ensures contents { IfOk result (λ o. contents o.file ≡ o.bytes.items) }
        ensures durable { IfOk result (λ o. LeavesJust o.bytes.items (may_leave o.file)) }
        ensures unfailed { IfOk result (λ o. has_failed o.file ≡ false) }
    {
        let path = self.path_of(rt, name)?;
        let mut noted = Noted::find(rt, path.as_str())?;
        self.settle(&mut noted)?;
        let bytes = noted.read_all(rt.alloc())?;
        let file = DiskFile::new(noted);
        Ok(Opened { bytes, file })
    }

    /// Removes a file, also from the disk. `Missing` if there is none.
    pub fn remove_file(&self, rt: &HostRuntime, name: &str) -> Result<(), OpenError> {
        let path = self.path_of(rt, name)?;
        remove_file(rt, path.as_str())?;
        self.file.sync_all()?;
        Ok(())
    }

    /// Whether the name of a file or folder in it begins so. It reads all names, in any order.
    pub fn has_name(&self, rt: &HostRuntime, front: &str) -> Result<bool, OpenError> {
        for entry in read_dir(rt, self.path.as_str())? {
            if entry?.file_name().starts_with(front) {
                return Ok(true);
            }
        }
        Ok(false)
    }

    /// Puts the name of a file on the disk, and then its bytes.
    fn settle(&self, noted: &mut Noted) -> io::Result<()>
        ensures settled { OnOk result (events_of noted.new ≡ Synced ∷ FolderSynced ∷ events_of noted.old) }
    {
        noted.ask(Call::SyncFolder(&self.file))?;
        noted.ask(Call::Sync)?;
        Ok(())
    }

    fn path_of(&self, rt: &HostRuntime, name: &str) -> Result<String, AllocError> {
        format!(in rt.alloc(); "{}/{}", self.path.as_str(), name)
    }
}
