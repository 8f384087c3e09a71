//! A file of the system, with the list of what happened to it. The system is asked in `make`, `find`, `read_all` and
//! `answer_of`, and nowhere else.

ghost use Rattle.std.specs.Prelude.{◌≡◌, ◌<◌, ◌≤◌, [], ◌∷◌, length, Some, None, is_ok, IfOk, IfErr, MatchResult};
ghost use Rattle.disk_file.specs.Events.{Made, Found, Read, Failed, IsAnswer, event_of, outcome};

use crate::history::{Call, History, Note};
use std::alloc::Global;
use std::fs::{File, OpenOptions};
use std::io;
use std::io::Read;
use std::os::fd::AsRawFd;
use std::os::unix::fs::FileExt;

/// A file that is open, and what happened to it.
#[derive(Drop)]
pub(crate) struct Noted {
    file: File,
    history: History,
}

impl Noted {
    ghost use Rattle.disk_file.specs.Noted.{events_of};

    /// Makes a file that isn't there.
    pub(crate) fn make(rt: &HostRuntime, path: &str) -> io::Result<Noted>
        ensures noted { IfOk result (λ f. events_of f ≡ Made ∷ []) }
    {
        let file = File::create_new(rt, path)?;
        Ok(Noted {
            file: above_streams(file)?,
            history: History::with(&History::empty(), &Note::Made),
        })
    }

    /// Opens a regular file that is there.
    pub(crate) fn find(rt: &HostRuntime, path: &str) -> io::Result<Noted>
        ensures noted { IfOk result (λ f. events_of f ≡ Found ∷ []) }
    {
        let file = OpenOptions::new().read(true).write(true).open(rt, path)?;
        if !file.metadata()?.is_file() {
            return Err(io::ErrorKind::Unsupported.into());
        }
        Ok(Noted {
            file: above_streams(file)?,
            history: History::with(&History::empty(), &Note::Found),
        })
    }

    /// Reads the whole file, and notes its bytes.
    pub(crate) fn read_all(&mut self, alloc: Global) -> io::Result<Vec<u8>>
        ensures noted { IfOk result (λ bytes. events_of self.new ≡ Read bytes.items ∷ events_of self.old) }
    {
        let mut bytes = Vec::new(alloc);
        self.file.read_to_end(&mut bytes)?;
        self.note(&Note::Read(&bytes));
        Ok(bytes)
    }

    /// Asks the system, and notes its answer.
    pub(crate) fn ask(&mut self, call: Call<'_>) -> io::Result<usize>
        ensures noted { MatchResult result
            (λ n. events_of self.new ≡ outcome call.entry (Some n) ∷ events_of self.old)
            (λ _. events_of self.new ≡ outcome call.entry None ∷ events_of self.old) }
        ensures answer { IfOk result (λ n. IsAnswer call.entry n) }
    {
        let answer = answer_of(&self.file, call);
        let taken = match answer {
            Ok(n) => Some(n),
            Err(_) => None,
        };
        self.note(&Note::Answered { call, taken });
        answer
    }

    /// Notes that a call was refused.
    pub(crate) fn refuse(&mut self)
        ensures noted { events_of self.new ≡ Failed ∷ events_of self.old }
    {
        self.note(&Note::Refused);
    }

    fn note(&mut self, note: &Note<'_>)
        ensures noted { events_of self.new ≡ event_of note.now ∷ events_of self.old }
    {
        self.history = History::with(&self.history, note);
    }
}

/// The number of the last standard stream.
const STANDARD_ERROR: i32 = 2;

/// The same file under a number above those of the standard streams. If a stream was closed, a file may get its number.
/// What is meant for the stream would then be written to the file.
fn above_streams(file: File) -> io::Result<File> {
    if file.as_raw_fd() > STANDARD_ERROR {
        Ok(file)
    } else {
        file.try_clone()
    }
}

/// Asks the system, and returns its answer.
fn answer_of(file: &File, call: Call<'_>) -> io::Result<usize>
    ensures { IfOk result (λ n. IsAnswer call.entry n) }
{
    match call {
        Call::SyncFolder(folder) => counted(folder.sync_all()),
        Call::Sync => counted(file.sync_data()),
        Call::Write { at, bytes } => write(file, at, bytes),
        Call::Cut { len } => counted(file.set_len(len as u64)),
    }
}

fn counted(answer: io::Result<()>) -> io::Result<usize>
    ensures { is_ok result ≡ is_ok answer }
{
    match answer {
        Ok(()) => Ok(0),
        Err(error) => Err(error),
    }
}

/// Writes a front of the bytes at an offset, and returns how many they are. It begins again if a signal interrupted it.
fn write(file: &File, at: usize, bytes: &[u8]) -> io::Result<usize>
    ensures { IfOk result (λ n. (0 < n) × (n ≤ length bytes.now)) }
{
    for _ in 0..u64::MAX {
        match file.write_at(bytes, at as u64) {
            Ok(0) => return Err(io::ErrorKind::WriteZero.into()),
            Err(error) if error.kind() == io::ErrorKind::Interrupted => {}
            answer => return answer,
        }
    }
    Err(io::ErrorKind::Interrupted.into())
}
