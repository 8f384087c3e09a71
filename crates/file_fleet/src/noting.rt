//! The file of a registry serves a fleet.

ghost use Rattle.std.specs.Prelude.{◌≡◌};
ghost use Rattle.file_fleet.specs.Noting.{id_of, span_of};

use crate::registry::{FleetRegistry, NoteFault, Span};
use registry_file::{JournalFile, RegistryFault, RegistryFile};
use registry_text::{ALL_FRAMES, LOST, Record};
use std::alloc::Global;
use take_journal::Device;

/// How much of a journal counts.
fn span_of(journal: Option<JournalFile>) -> Span
    ensures { result ≡ span_of journal }
{
    match journal {
        None => Span::Nothing,
        Some(file) => {
            if file.id == LOST {
                Span::Nothing
            } else if file.count == ALL_FRAMES {
                Span::Whole
            } else {
                Span::First(file.count)
            }
        }
    }
}

/// The id of a backup's file.
fn id_of(journal: Option<JournalFile>) -> u64
    ensures { result ≡ id_of journal }
{
    match journal {
        None => LOST,
        Some(file) => file.id,
    }
}

impl<D: Device> FleetRegistry for RegistryFile<D> {
    ghost use Rattle.std.specs.Prelude.{ℕ, List};
    ghost use Rattle.file_fleet.specs.Noting.{IsIn, IsSound, file_of, noted_by};
    ghost use Rattle.file_fleet.specs.NotingLaws.{in_more, sound_only};

    ghost noted = { λ r. noted_by r };

    ghost is_sound = { λ r. IsSound D.contents D.may_leave D.has_failed r };

    ghost leaves = { λ r left. IsIn (D.may_leave (file_of r)) left };

    ghost time = { λ r. D.clock (file_of r) };

    ghost left_of = { λ r moment left. IsIn (D.left_since (file_of r) moment) left };

    fn least(&self, master: u64) -> u64 {
        self.registry().least(master)
    }

    fn span(&self, backup: u64) -> Span {
        span_of(self.registry().journal(backup))
    }

    fn file(&self, backup: u64) -> u64 {
        id_of(self.registry().journal(backup))
    }

    fn master(&self) -> Option<u64> {
        self.registry().master()
    }

    fn raise(&mut self, alloc: Global, master: u64, id: u64) -> Result<(), NoteFault> {
        match self.put(alloc, &Record::Raise { master, head: id }) {
            Ok(()) => Ok(()),
            Err(RegistryFault::Failed) => Err(NoteFault::Failed),
            Err(_) => Err(NoteFault::NoMemory),
        }
    }

    fn end_journal(&mut self, alloc: Global, backup: u64, frames: u64) -> Result<(), NoteFault> {
        let Some(file) = self.registry().journal(backup) else {
            return Err(NoteFault::NoMemory);
        };
        if file.id == LOST {
            return Err(NoteFault::NoMemory);
        }
        let record = Record::Journal {
            backup,
            id: file.id,
            count: frames,
        };
        match self.put(alloc, &record) {
            Ok(()) => Ok(()),
            Err(_) => Err(NoteFault::Failed),
        }
    }

    fn name_file(&mut self, alloc: Global, backup: u64, id: u64) -> Result<(), NoteFault> {
        let record = Record::Journal {
            backup,
            id,
            count: ALL_FRAMES,
        };
        match self.put(alloc, &record) {
            Ok(()) => Ok(()),
            Err(RegistryFault::Failed) => Err(NoteFault::Failed),
            Err(_) => Err(NoteFault::NoMemory),
        }
    }

    fn name_master(&mut self, alloc: Global, master: u64) -> Result<(), NoteFault> {
        match self.put(alloc, &Record::Master(master)) {
            Ok(()) => Ok(()),
            Err(RegistryFault::Failed) => Err(NoteFault::Failed),
            Err(_) => Err(NoteFault::NoMemory),
        }
    }

    ghost counts = { λ r moment left on is. in_more (D.may_leave (file_of r)) (D.left_since (file_of r) moment)
        (λ file may. D.counts_now (file_of r) moment file on may) left is };

    ghost just_now = { λ r left is. in_more (D.left_since (file_of r) (D.clock (file_of r))) (D.may_leave (file_of r))
        (λ file was. D.just_now (file_of r) file was) left is };

    ghost just_kept = { λ r left sound is. sound_only D.contents D.may_leave D.has_failed r left sound is };
}
