//! Replaying the texts of a journal.

ghost use Rattle.std.specs.Prelude.{◌≡◌, Some, Err, IfOk, IfErr, take};
ghost use Rattle.take_journal.specs.Frames.{texts_of};
ghost use Rattle.file_backup.specs.Replay.{TakesText, held_in, shown};
ghost use Rattle.file_backup.specs.Mirror.{TellsWrong};

use crate::BackupFault;
use backup::MemoryBackup;
use op_text::read_op;
use replica::TakeFault;
use std::alloc::Global;

/// Has a backup do what a text asks.
fn take_text(alloc: Global, memory: &mut MemoryBackup, text: &[u8]) -> Result<(), TakeFault>
    ensures { TakesText (held_in memory.old) text.now result (held_in memory.new) }
{
    match read_op(text) {
        Some(op) => memory.take(alloc, &op),
        None => Err(TakeFault::Wrong),
    }
}

/// Makes a backup of the texts of a file. The first one names the format, and the others are those of ops.
pub(crate) fn replay(alloc: Global, texts: &[Vec<u8>]) -> Result<MemoryBackup, BackupFault>
    ensures shown { IfOk result (λ memory. shown (texts_of texts.now) ≡ Some (held_in memory)) }
    ensures refused { IfErr result (λ fault. TellsWrong fault (texts_of texts.now)) }
{
    if texts.is_empty() {
        return Err(BackupFault::NotBegun);
    }
    let mut memory = MemoryBackup::new(alloc);
    for i in 1..texts.len() {
        match take_text(alloc, &mut memory, &texts[i]) {
            Ok(()) => {}
            Err(TakeFault::Wrong) => return Err(BackupFault::WrongFrame(i)),
            Err(_) => return Err(BackupFault::NoMemory),
        }
    }
    Ok(memory)
}

/// The first texts, so many or all that there are.
pub(crate) fn first_texts(texts: &[Vec<u8>], count: u64) -> &[Vec<u8>]
    ensures { texts_of result.now ≡ take count (texts_of texts.entry.now) }
{
    if count < texts.len() as u64 {
        &texts[..count as usize]
    } else {
        texts
    }
}
