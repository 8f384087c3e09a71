//! A device in memory, for tests. It stops at a call that was named before, and leaves the last write torn.

ghost use Rattle.std.specs.Prelude.{◌≡◌, ◌≤◌, ◌⊎◌, ℕ, List, length, take, is_err, true, false, OnErr, OnOk, IfOk};
ghost use Rattle.std.proofs.Common.{inl};
ghost use Rattle.take_journal.specs.Device.{IsTornCut, IsTornWrite, overwritten};
ghost use Rattle.take_journal.specs.Past.{IsAmong, IsEither, IsTurned, just_either};

use crate::{Device, DeviceFailed};
use std::alloc::{AllocError, Global};
use std::mem::replace;

/// What reaches the disk of a write that no sync has confirmed.
#[derive(Clone, Copy)]
pub struct Tear {
    /// How many bytes of the write arrive, from its first one on. Of a cut: how many bytes behind it stay.
    pub kept: usize,
    /// What is there in place of the others: this byte, or what was there before.
    pub junk: Option<u8>,
}

/// A file in memory, and beside it what the disk has. A write reaches the disk torn, and the next sync mends that.
#[derive(Drop)]
pub struct MemoryDevice {
    alloc: Global,
    bytes: Vec<u8>,
    disk: Vec<u8>,
    /// Each content that one of the two had before.
    past: Vec<Vec<u8>>,
    tear: Tear,
    calls_left: u64,
    has_failed: bool,
}

impl MemoryDevice {
    ghost use Rattle.take_journal.specs.Device.{LeavesJust};
    ghost use Rattle.take_journal.specs.Memory.{memory_bytes, memory_has_failed, memory_leaves};

    /// A device whose file has these bytes, all of them on the disk. It stops at the call with this number, counted
    /// from 1. That call and each later one fail.
    pub fn new(alloc: Global, bytes: &[u8], stops_at: u64, tear: Tear) -> Result<Self, AllocError>
        ensures bytes { IfOk result (λ device. memory_bytes device ≡ bytes.now) }
        ensures durable { IfOk result (λ device. LeavesJust bytes.now (memory_leaves device)) }
        ensures unfailed { IfOk result (λ device. memory_has_failed device ≡ false) }
    {
        Ok(MemoryDevice {
            alloc,
            bytes: bytes.to_vec(alloc)?,
            disk: bytes.to_vec(alloc)?,
            past: Vec::new(alloc),
            tear,
            calls_left: stops_at,
            has_failed: false,
        })
    }

    /// What a read returns.
    pub fn bytes(&self) -> &[u8]
        ensures { result.now ≡ memory_bytes self.now }
    {
        &self.bytes
    }

    /// What a crash leaves.
    pub fn disk(&self) -> &[u8] {
        &self.disk
    }
}

/// The file with these bytes in the place of those from `at` on.
fn overwrite(alloc: Global, file: &[u8], at: usize, bytes: &[u8]) -> Result<Vec<u8>, AllocError>
    requires { at ≤ length file.now }
    ensures { IfOk result (λ next. next.items ≡ overwritten at bytes.now file.now) }
{
    let mut next = file[..at].to_vec(alloc)?;
    next.extend_from_slice(bytes)?;
    if bytes.len() < file.len() - at {
        next.extend_from_slice(&file[at + bytes.len()..])?;
    }
    Ok(next)
}

/// What a torn write writes.
fn torn(alloc: Global, bytes: &[u8], tear: Tear) -> Result<Vec<u8>, AllocError>
    ensures { IfOk result (λ written. length written.items ≤ length bytes.now) }
{
    let mut written = bytes.to_vec(alloc)?;
    let kept = tear.kept.min(bytes.len());
    match tear.junk {
        Some(byte) => written[kept..].fill(byte),
        None => written.truncate(kept),
    }
    Ok(written)
}

/// The disk after a torn write.
fn tear_write(
    alloc: Global,
    disk: &[u8],
    at: usize,
    bytes: &[u8],
    tear: Tear,
) -> Result<Vec<u8>, AllocError>
    ensures { IfOk result (λ next. IsTornWrite at (length bytes.now) disk.now next.items) }
{
    if at > disk.len() {
        return disk.to_vec(alloc);
    }
    let written = torn(alloc, bytes, tear)?;
    overwrite(alloc, disk, at, &written)
}

/// The disk after a torn cut.
fn tear_cut(alloc: Global, disk: &[u8], len: usize, tear: Tear) -> Result<Vec<u8>, AllocError>
    ensures { IfOk result (λ next. IsTornCut len disk.now next.items) }
{
    if len > disk.len() {
        return disk.to_vec(alloc);
    }
    let more = tear.kept.min(disk.len() - len);
    disk[..len + more].to_vec(alloc)
}

/// Puts other contents in the place of those that are there, and keeps these.
fn turn(
    past: &mut Vec<Vec<u8>>,
    bytes: &mut Vec<u8>,
    disk: &mut Vec<u8>,
    next: Vec<u8>,
    on_disk: Vec<u8>,
) -> Result<(), AllocError>
    ensures ok { OnOk result (IsTurned past.old.items bytes.old.items disk.old.items past.new.items) }
    ensures bytes { OnOk result (bytes.new.items ≡ next.items) }
    ensures disk { OnOk result (disk.new.items ≡ on_disk.items) }
    ensures err { OnErr result ((past.new.items ≡ past.old.items) × (bytes.new.items ≡ bytes.old.items)
        × (disk.new.items ≡ disk.old.items)) }
{
    past.reserve(2)?;
    past.push_reserved(replace(bytes, next));
    past.push_reserved(replace(disk, on_disk));
    Ok(())
}

/// Counts a call, and says what it answers.
fn answer(is_done: bool, calls_left: &mut u64, has_failed: &mut bool) -> Result<(), DeviceFailed>
    ensures failure { has_failed.new ≡ is_err result }
    ensures done { OnOk result (is_done ≡ true) }
{
    *calls_left = calls_left.saturating_sub(1);
    *has_failed = !is_done || *calls_left == 0;
    if *has_failed {
        return Err(DeviceFailed);
    }
    Ok(())
}

impl MemoryDevice {
    ghost use Rattle.take_journal.specs.Device.{EachFrom, Passes};
    ghost use Rattle.take_journal.specs.Memory.{memory_clock, memory_leaves, memory_left_since};

    fn write(&mut self, at: usize, bytes: &[u8]) -> Result<(), AllocError>
        requires { at ≤ length self.old.bytes.items }
        ensures written { OnOk result (self.new.bytes.items ≡ overwritten at bytes.now self.old.bytes.items) }
        ensures crash { EachFrom (IsTornWrite at (length bytes.now)) (memory_leaves self.old) (memory_leaves self.new) }
        ensures time { Passes memory_clock memory_left_since memory_leaves self.old self.new }
    {
        let next = overwrite(self.alloc, &self.bytes, at, bytes)?;
        let on_disk = tear_write(self.alloc, &self.disk, at, bytes, self.tear)?;
        turn(
            &mut self.past,
            &mut self.bytes,
            &mut self.disk,
            next,
            on_disk,
        )
    }

    fn shorten(&mut self, len: usize) -> Result<(), AllocError>
        requires { len ≤ length self.old.bytes.items }
        ensures cut { OnOk result (self.new.bytes.items ≡ take len self.old.bytes.items) }
        ensures crash { EachFrom (IsTornCut len) (memory_leaves self.old) (memory_leaves self.new) }
        ensures time { Passes memory_clock memory_left_since memory_leaves self.old self.new }
    {
        let next = self.bytes[..len].to_vec(self.alloc)?;
        let on_disk = tear_cut(self.alloc, &self.disk, len, self.tear)?;
        turn(
            &mut self.past,
            &mut self.bytes,
            &mut self.disk,
            next,
            on_disk,
        )
    }

    fn confirm(&mut self) -> Result<(), AllocError>
        ensures same { self.new.bytes.items ≡ self.old.bytes.items }
        ensures durable { OnOk result (self.new.disk.items ≡ self.old.bytes.items) }
        ensures crash { (file : List ℕ) → memory_leaves self.new file → memory_leaves self.old file }
        ensures time { Passes memory_clock memory_left_since memory_leaves self.old self.new }
    {
        let next = self.bytes.to_vec(self.alloc)?;
        let on_disk = self.bytes.to_vec(self.alloc)?;
        turn(
            &mut self.past,
            &mut self.bytes,
            &mut self.disk,
            next,
            on_disk,
        )
    }
}

impl Device for MemoryDevice {
    ghost contents = { λ m. m.bytes.items };

    ghost may_leave = { λ m file. IsEither m.bytes.items m.disk.items file };

    ghost clock = { λ m. length m.past.items };

    ghost left_since = { λ m moment file. IsEither m.bytes.items m.disk.items file ⊎ IsAmong moment m.past.items file };

    ghost has_failed = { λ m. m.has_failed };

    ghost counts_now = { λ m moment file le now. inl now };

    ghost just_now = { λ m file left. just_either m.bytes.items m.disk.items m.past.items file left };

    fn write_at(&mut self, at: usize, bytes: &[u8]) -> Result<(), DeviceFailed> {
        if self.has_failed {
            return Err(DeviceFailed);
        }
        let is_done = self.write(at, bytes).is_ok();
        answer(is_done, &mut self.calls_left, &mut self.has_failed)
    }

    fn cut(&mut self, len: usize) -> Result<(), DeviceFailed> {
        if self.has_failed {
            return Err(DeviceFailed);
        }
        let is_done = self.shorten(len).is_ok();
        answer(is_done, &mut self.calls_left, &mut self.has_failed)
    }

    fn sync(&mut self) -> Result<(), DeviceFailed> {
        if self.has_failed || self.calls_left <= 1 {
            self.has_failed = true;
            return Err(DeviceFailed);
        }
        let is_done = self.confirm().is_ok();
        answer(is_done, &mut self.calls_left, &mut self.has_failed)
    }
}
