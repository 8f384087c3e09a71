//! What is printed of a load.

use loads::locked_log::CallFault;
use loads::{Latencies, Work};
use std::alloc::{AllocError, Global};
use std::io::{self, Print};

/// The latencies of all threads: of reads, and of updates.
pub fn add_all(alloc: Global, works: &[Work]) -> Result<(Latencies, Latencies), AllocError> {
    let mut reads = Latencies::new(alloc)?;
    let mut updates = Latencies::new(alloc)?;
    for work in works {
        reads.add(&work.reads);
        updates.add(&work.updates);
    }
    Ok((reads, updates))
}

/// How many operations all threads made.
pub fn operations(works: &[Work]) -> u64 {
    let mut operations: u64 = 0;
    for work in works {
        operations = operations.saturating_add(work.operations);
    }
    operations
}

/// Prints how many there were of something, and how many in a second.
pub fn say_speed<R: Print>(
    rt: &R,
    count: u64,
    what: &str,
    threads: u64,
    took: u64,
) -> io::Result<()> {
    let per = count as u128 * 1_000_000_000 / took.max(1) as u128;
    let micros = took / 1_000;
    println!(rt; "{count} {what} by {threads} threads in {micros} microseconds: {per} a second")
}

/// Prints the percentiles of some calls, in nanoseconds.
pub fn say_latencies<R: Print>(rt: &R, what: &str, latencies: &Latencies) -> io::Result<()> {
    let calls = latencies.calls();
    let half = latencies.percentile(5_000);
    let most = latencies.percentile(9_500);
    let nearly = latencies.percentile(9_900);
    let last = latencies.percentile(9_990);
    let greatest = latencies.greatest();
    println!(rt;
        "{what}: {calls} calls, 50 % {half}, 95 % {most}, 99 % {nearly}, 99.9 % {last}, greatest {greatest} ns"
    )
}

/// Prints the fault that ended a thread, if there is one.
pub fn say_fault<R: Print>(rt: &R, fault: &Option<CallFault>) -> io::Result<()> {
    match fault {
        None => Ok(()),
        Some(CallFault::Refused(refusal)) => println!(rt; "ended by: refused {refusal}"),
        Some(CallFault::Unsure(_, refusal)) => println!(rt; "ended by: unsure {refusal}"),
        Some(CallFault::SeatUnknown) => println!(rt; "ended by: seat unknown"),
        Some(CallFault::CellRefused) => println!(rt; "ended by: cell refused"),
        Some(CallFault::CellsSpent) => println!(rt; "ended by: cells spent"),
        Some(CallFault::NotYours) => println!(rt; "ended by: not yours"),
    }
}
