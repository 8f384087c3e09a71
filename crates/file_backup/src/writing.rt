//! The texts of ops that make all replicas of a backup.

ghost use Rattle.std.specs.Prelude.{◌≡◌, [], ◌∷◌, Some, IfOk, OnOk};
ghost use Rattle.std.specs.List.{AllByRecursion};
ghost use Rattle.replica.specs.Op.{shown_op};
ghost use Rattle.op_text.specs.OpText.{op_text};
ghost use Rattle.take_journal.specs.Crash.{HasVersion};
ghost use Rattle.take_journal.specs.Frames.{AreShort, IsShort, texts_of};
ghost use Rattle.file_backup.specs.Replay.{held_in, shown};
ghost use Rattle.file_backup.specs.Whole.{IsReady, making, texts_making};

use backup::MemoryBackup;
use entry::NoMemory;
use op_text::{one_op, write_op};
use replica::{Act, Holding, Op};
use std::alloc::Global;

/// The longest text that a frame has room for.
pub(crate) const MAX_TEXT_LEN: usize = (1 << 32) - 1;

/// The op that makes a replica.
fn making<'a>(holding: &Holding<'a>) -> Op<'a>
    ensures { shown_op result ≡ making holding.now }
{
    let bytes = holding.bytes.as_slice();
    Op {
        master: holding.master,
        segment: holding.segment,
        act: if holding.is_open {
            Act::Open(bytes)
        } else {
            Act::Seal(bytes)
        },
    }
}

/// The text of the op that makes a replica. A text that is too long for a frame is refused as `NoMemory`.
fn text_making(alloc: Global, holding: &Holding<'_>) -> Result<Vec<u8>, NoMemory>
    ensures text { IfOk result (λ text. text.items ≡ op_text (making holding.now)) }
    ensures ready { OnOk result (IsReady holding.now) }
{
    let mut text = Vec::new(alloc);
    write_op(&mut text, &making(holding))?;
    if text.len() > MAX_TEXT_LEN {
        return Err(NoMemory);
    }
    Ok(text)
}

/// The first text of a file, and then those of the ops that make these replicas.
fn texts_making(
    alloc: Global,
    first: &[u8],
    holdings: &[Holding<'_>],
) -> Result<Vec<Vec<u8>>, NoMemory>
    ensures texts { IfOk result (λ texts. texts_of texts.items ≡ first.now ∷ texts_making holdings.now) }
    ensures ready { OnOk result (AllByRecursion IsReady holdings.now) }
{
    let mut texts = Vec::new(alloc);
    texts.push(first.to_vec(alloc)?)?;
    for holding in holdings {
        texts.push(text_making(alloc, holding)?)?;
    }
    Ok(texts)
}

/// The texts of a file that shows all replicas of a backup: its first text, and an Open or a Seal for each replica.
pub(crate) fn whole_texts(
    alloc: Global,
    first: &[u8],
    memory: &MemoryBackup,
) -> Result<Vec<Vec<u8>>, NoMemory>
    requires short { IsShort first.now }
    requires version { HasVersion (first.now ∷ []) }
    ensures shown { IfOk result (λ texts. shown (texts_of texts.items) ≡ Some (held_in memory.now)) }
    ensures short { IfOk result (λ texts. AreShort (texts_of texts.items)) }
    ensures version { IfOk result (λ texts. HasVersion (texts_of texts.items)) }
{
    let mut holdings = Vec::new(alloc);
    memory.show(0, &mut holdings)?;
    one_op();
    texts_making(alloc, first, &holdings)
}
