//! What a registry keeps, in memory.

ghost use Rattle.std.specs.Prelude.{◌≡◌, ◌<◌, length, vec_capacity, OnOk};
ghost use Rattle.registry_file.specs.Kept.{after, begun, file_in, journal_at, kept_in, least_in, raised_at};
ghost use Rattle.registry_text.specs.RecordText.{shown_fleet};
ghost use Rattle.registry_file.specs.Room.{HasRoom};

use entry::NoMemory;
use registry_text::{Fleet, Record};
use std::alloc::Global;

/// A file of a journal, as a registry names it.
#[derive(Clone, Copy)]
pub struct JournalFile {
    /// The id of the file, or `LOST`.
    pub id: u64,
    /// How many frames of the file count, from the first one on, or `ALL_FRAMES`.
    pub count: u64,
}

/// The file of one backup's journal.
#[derive(Clone, Copy)]
pub struct BackupJournal {
    pub backup: u64,
    pub file: JournalFile,
}

/// The least head that a recovery of one master may use.
#[derive(Clone, Copy)]
pub struct LeastHead {
    pub master: u64,
    pub head: u64,
}

/// What a registry keeps: the store's id and options, and what the records say. A look-up goes through all backups or
/// masters that were named.
#[derive(Drop)]
pub struct Registry {
    pub(crate) fleet: Fleet,
    pub(crate) journals: Vec<BackupJournal>,
    pub(crate) leasts: Vec<LeastHead>,
    pub(crate) master: Option<u64>,
    pub(crate) format: Option<u64>,
}

impl Registry {
    /// A registry without records. It takes no memory.
    pub fn new(alloc: Global, fleet: Fleet) -> Self
        ensures { kept_in result ≡ begun (shown_fleet fleet) }
    {
        Registry {
            fleet,
            journals: Vec::new(alloc),
            leasts: Vec::new(alloc),
            master: None,
            format: None,
        }
    }

    /// The store.
    pub fn fleet(&self) -> &Fleet
        ensures { shown_fleet result.now ≡ (kept_in self.now).fleet }
    {
        &self.fleet
    }

    /// The file of a backup's journal. The answer is `None` if no record named one.
    pub fn journal(&self, backup: u64) -> Option<JournalFile>
        ensures { result ≡ (kept_in self.now).journal backup }
    {
        file_in(&self.journals, backup)
    }

    /// The least head that a recovery of this master may use: the greatest that a record named, or 0.
    pub fn least(&self, master: u64) -> u64
        ensures { result ≡ (kept_in self.now).least master }
    {
        least_in(&self.leasts, master)
    }

    /// The journals that were named, in the order in which their backups came.
    pub fn journals(&self) -> &[BackupJournal]
        ensures { file_in result.now ≡ (kept_in self.now).journal }
    {
        &self.journals
    }

    /// The least heads that were named, in the order in which their masters came.
    pub fn leasts(&self) -> &[LeastHead]
        ensures { least_in result.now ≡ (kept_in self.now).least }
    {
        &self.leasts
    }

    /// The master that a recovery is for. The answer is `None` if no record named one.
    pub fn master(&self) -> Option<u64>
        ensures { result ≡ (kept_in self.now).master }
    {
        self.master
    }

    /// The format of the store's log. The answer is `None` if no record named one.
    pub fn format(&self) -> Option<u64>
        ensures { result ≡ (kept_in self.now).format }
    {
        self.format
    }

    /// Has memory for one more record.
    pub(crate) fn reserve(&mut self) -> Result<(), NoMemory>
        ensures room { OnOk result (HasRoom self.new) }
        ensures same { kept_in self.new ≡ kept_in self.old }
    {
        self.journals.reserve(1)?;
        self.leasts.reserve(1)
    }

    /// Keeps what a record says. It takes no memory.
    pub(crate) fn note(&mut self, record: &Record)
        requires { HasRoom self.old }
        ensures { kept_in self.new ≡ after (kept_in self.old) record.now }
    {
        match *record {
            Record::Journal { backup, id, count } => put_journal(
                &mut self.journals,
                BackupJournal {
                    backup,
                    file: JournalFile { id, count },
                },
            ),
            Record::Raise { master, head } => raise(&mut self.leasts, LeastHead { master, head }),
            Record::Master(number) => self.master = Some(number),
            Record::Format(number) => self.format = Some(number),
        }
    }
}

/// The file of a backup's journal: the last one that is listed for it.
fn file_in(journals: &[BackupJournal], backup: u64) -> Option<JournalFile>
    ensures { result ≡ file_in journals.now backup }
{
    let mut i = journals.len();
    while i > 0 {
        i -= 1;
        if journals[i].backup == backup {
            return Some(journals[i].file);
        }
    }
    None
}

/// The least head of a master: the greatest that is listed for it.
fn least_in(leasts: &[LeastHead], master: u64) -> u64
    ensures { result ≡ least_in leasts.now master }
{
    let mut least = 0;
    for i in 0..leasts.len() {
        if leasts[i].master == master && leasts[i].head > least {
            least = leasts[i].head;
        }
    }
    least
}

/// Lists another file for a backup.
fn put_journal(journals: &mut Vec<BackupJournal>, journal: BackupJournal)
    requires { length journals.old.items < vec_capacity journals.old }
    ensures { file_in journals.new.items ≡ journal_at (file_in journals.old.items) journal.backup journal.file }
{
    let mut i = journals.len();
    while i > 0 {
        i -= 1;
        if journals[i].backup == journal.backup {
            journals[i] = journal;
            return;
        }
    }
    journals.push_reserved(journal);
}

/// Lists a least head for a master. What is listed never falls.
fn raise(leasts: &mut Vec<LeastHead>, least: LeastHead)
    requires { length leasts.old.items < vec_capacity leasts.old }
    ensures { least_in leasts.new.items ≡ raised_at (least_in leasts.old.items) least.master least.head }
{
    for i in 0..leasts.len() {
        let listed = leasts[i];
        if listed.master == least.master {
            if listed.head < least.head {
                leasts[i] = least;
            }
            return;
        }
    }
    leasts.push_reserved(least);
}
