//! A journal is opened: its file is read, and the end that a crash left torn is mended.

ghost use Rattle.std.specs.Prelude.{◌≡◌, ◌⊎◌, ◌↔◌, true, false, IfErr, IfOk, IsErrOf, IsTrue, OnErr, OnOk};
ghost use Rattle.std.specs.Prelude.{length};
ghost use Rattle.take_journal.specs.Crash.{HasVersion, IsFront, IsTail, IsTornEnd, LeftByMending, MayBeLeft};
ghost use Rattle.take_journal.specs.Crash.{TellsDamage};
ghost use Rattle.take_journal.specs.Device.{AnyMoment, LeavesJust};
ghost use Rattle.take_journal.specs.Frames.{AreShort, frames, recovered, texts_of};
ghost use Rattle.take_journal.specs.Journal.{IsSettled, IsSound, StandsFor};
ghost use Rattle.take_journal.specs.declared.fault.OpenFault.TheVariants as open_fault;

use crate::frames::{CLOSED, OPEN, end_of_frames, first_text, read_texts, split_text};
use crate::{Device, DeviceFailed, Journal, OpenFault};
use std::alloc::Global;

/// The version of the format. The first text of a file begins with it.
pub const VERSION: u8 = 1;

impl<D: Device> Journal<D> {
    /// Opens a journal whose file has just these bytes, all of them on the disk, and gives its texts. An empty file is
    /// a journal without texts.
    ///
    /// What a crash left torn behind the last frame is cut off, and a closed gate is put there. A crash amid that
    /// leaves the same texts. A file that no crash can have left is refused, and nothing is done to it. A cut, a write
    /// and two syncs.
    pub fn open(&mut self, alloc: Global, bytes: &[u8]) -> Result<Vec<Vec<u8>>, OpenFault>
        requires closed { self.old.is_open ≡ false }
        requires bytes { bytes.now ≡ D.contents self.old.device }
        requires durable { LeavesJust bytes.now (D.may_leave self.old.device) }
        requires unfailed { D.has_failed self.old.device ≡ false }

        ensures sound { IsSound D.contents D.may_leave D.has_failed self.new }
        ensures texts { IfOk result (λ texts. texts_of texts.items ≡ recovered bytes.now) }
        ensures opened { OnOk result (StandsFor D.contents D.may_leave D.has_failed self.new (recovered bytes.now)) }
        ensures short { OnOk result (AreShort (recovered bytes.now)) }
        ensures version { OnOk result (HasVersion (recovered bytes.now)) }
        ensures left { OnOk result (MayBeLeft bytes.now) }

        // A crash at any moment of the call leaves the same texts, and a file that can be opened.
        ensures any_moment { AnyMoment D.clock D.left_since (LeftByMending bytes.now) self.old.device self.new.device }

        ensures damaged { IfErr result (λ fault. TellsDamage fault bytes.now) }
        ensures other { IsErrOf result OpenFault.OtherVersion → HasVersion (recovered bytes.now) → ⊥ }
        ensures refused { IfErr result (λ fault. (fault ≡ open_fault.Failed) ⊎ (self.new ≡ self.old)) }
        ensures failed { IsErrOf result OpenFault.Failed → D.has_failed self.new.device ≡ true }
    {
        if !is_of_version(bytes) {
            return Err(OpenFault::OtherVersion);
        }
        let end = end_of_frames(bytes);
        let at = bytes.len() - end.len();
        if !is_torn_end(end) {
            return Err(OpenFault::Damaged(at));
        }
        let texts = read_texts(alloc, bytes)?;
        self.is_open = false;
        mend(&mut self.device, at)?;
        self.end = at;
        self.is_open = true;
        Ok(texts)
    }
}

/// Whether the first text of a file, if there is one, begins with the version of this format.
fn is_of_version(bytes: &[u8]) -> bool
    ensures { IsTrue result ↔ HasVersion (recovered bytes.now) }
{
    match first_text(bytes) {
        None => true,
        Some((text, _)) => match text {
            [version, ..] => *version == VERSION,
            [] => false,
        },
    }
}

/// Whether a crash may leave these bytes behind the frames that count.
fn is_torn_end(end: &[u8]) -> bool
    ensures { IsTrue result ↔ IsTornEnd end.now }
{
    match end {
        [] | [_] | [CLOSED, ..] => true,
        [OPEN, ..] => false,
        [_, behind @ ..] => is_front(behind),
    }
}

/// Whether these bytes are a front of what stands behind an opened gate.
fn is_front(behind: &[u8]) -> bool
    ensures { IsTrue result ↔ IsFront behind.now }
{
    match split_text(behind) {
        None => true,
        Some((_, rest)) => is_tail(end_of_frames(rest)),
    }
}

/// Whether the bytes are none, a closed gate as the last one, or an open gate and what follows it.
fn is_tail(end: &[u8]) -> bool
    ensures { IsTrue result ↔ IsTail end.now }
{
    matches!(end, [] | [CLOSED] | [OPEN, ..])
}

/// Cuts off what stands behind the frames, and puts a closed gate there.
fn mend<D: Device>(device: &mut D, at: usize) -> Result<(), DeviceFailed>
    requires durable { LeavesJust (D.contents device.old) (D.may_leave device.old) }
    requires unfailed { D.has_failed device.old ≡ false }
    requires left { MayBeLeft (D.contents device.old) }
    requires place { at ≡ length (frames (recovered (D.contents device.old))) }

    ensures settled { OnOk result (IsSettled D.contents D.may_leave D.has_failed device.new at) }
    ensures texts { OnOk result (recovered (D.contents device.new) ≡ recovered (D.contents device.old)) }
    ensures any_moment { AnyMoment D.clock D.left_since (LeftByMending (D.contents device.old)) device.old device.new }
    ensures failed { OnErr result (D.has_failed device.new ≡ true) }
{
    device.cut(at)?;
    // The cut has to be on the disk first. Behind a gate that is torn open, what stood there could count again.
    device.sync()?;
    device.write_at(at, &[CLOSED])?;
    device.sync()?;
    Ok(())
}
