//! The first text of a backup's journal.

ghost use Rattle.std.specs.Prelude.{◌≡◌, ◌∷◌, [], IsTrue};
ghost use Rattle.take_journal.specs.Crash.{HasVersion};
ghost use Rattle.take_journal.specs.Frames.{IsShort, frame};
ghost use Rattle.fleet_start.specs.First.{BeginsWith, first_text};

use byteorder::{BigEndian, ByteOrder};
use take_journal::VERSION;

/// The second byte of a journal's file.
pub const JOURNAL: u8 = b'B';

/// How many bytes the first text has.
const TEXT_LEN: usize = 26;

/// What stands before the first text: an open gate, and its length.
const FRONT_LEN: usize = 5;

/// The first text of the journal that a store has of a backup in the file with this id.
#[tactic(auto, unfolding(entry::specs::Format::number_bytes))]
pub fn first_text(store: u64, backup: u64, id: u64) -> [u8; TEXT_LEN]
    ensures text { result ≡ first_text store backup id }
    ensures version { HasVersion (result ∷ []) }
    ensures short { IsShort result }
{
    let mut text = [VERSION; TEXT_LEN];
    text[1] = JOURNAL;
    BigEndian::write_u64(&mut text[2..], store);
    BigEndian::write_u64(&mut text[10..], backup);
    BigEndian::write_u64(&mut text[18..], id);
    text
}

/// Whether a file begins with the first text of this journal. A crash can leave a shorter file, which has no text.
pub fn is_journal_of(bytes: &[u8], store: u64, backup: u64, id: u64) -> bool
    ensures { IsTrue result → BeginsWith (first_text store backup id) bytes.now }
{
    let text = first_text(store, backup, id);
    if bytes.len() < FRONT_LEN + TEXT_LEN {
        return false;
    }
    let front = [1, 0, 0, 0, TEXT_LEN as u8];
    is_same(&bytes[..FRONT_LEN], &front) && is_same(&bytes[FRONT_LEN..FRONT_LEN + TEXT_LEN], &text)
}

/// Whether two texts are the same.
fn is_same(one: &[u8], other: &[u8]) -> bool
    ensures { IsTrue result → one.now ≡ other.now }
{
    one == other
}
