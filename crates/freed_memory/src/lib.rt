//! Freed memory that a process keeps for later.
//!
//! The allocator of the C library hands free memory back to the system once there is much of it, and the next segment
//! takes it from the system again, page by page. `keep_freed` has the allocator keep more. The crate uses nothing else.
#![tactic(auto)]

use std::alloc::Global;

/// The bytes of the block that `keep_freed` takes and frees. The allocator learns nothing from a block above 32 MiB.
const BLOCK: usize = 33_000_000;

/// Has the allocator keep up to 66 MB of free memory at the end of its heap for later requests: twice the largest block
/// that was freed. So the call takes a block of 33 MB, writes to none of it, and frees it. If there is no memory for
/// the block, nothing happens. Blocks of up to 33 MB come from the heap then.
pub fn keep_freed(alloc: Global) {
    let block: Result<Vec<u8>, _> = Vec::with_capacity(alloc, BLOCK);
    drop(block);
}
