//! A law about the files of backups, for the proofs of callers.

ghost use Rattle.file_backup.specs.Mirror.{CrashesAreOpened};

/// Whatever a crash in a take leaves is opened by the next start, unless memory runs out or the device fails.
pub fn crashes_are_opened()
    ensures { CrashesAreOpened }
{}
