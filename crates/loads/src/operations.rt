//! The operations of a load.

ghost use Rattle.std.specs.Prelude.{◌≡◌, ◌≤◌, ◌+◌, IfOk, OnOk};

use crate::asking::ask;
use crate::cleaning::Cleaner;
use crate::objects::{fresh_value, object_of};
use crate::plan::Task;
use crate::tracing::nanos;
use crate::work::Work;
use counted_calls::locked_log::{CallFault, Naming, Seat, Store};
use counted_calls::master::{Command, If, Refusal, Reply};
use entry::{MAX_VALUE_LEN, Value};
use load_keys::{Act, Keys};
use replica::Fleet;
use std::sync::Wait;
use std::sync::atomic::{AtomicU64, Ordering};
use std::time::Clock;

/// Makes one call, and counts how long it took.
fn make_call<F: Fleet, B: Naming, R: Wait + Clock>(
    rt: &R,
    store: &Store<F, B>,
    cleaner: &Cleaner,
    seat: &mut Seat<B>,
    work: &mut Work,
    task: &Task,
    command: &Command,
) -> Result<Reply, CallFault>
    ensures number { seat.new.number ≡ seat.old.number }
    ensures count { seat.old.count ≤ seat.new.count }
    ensures one { OnOk result (seat.new.count ≡ seat.old.count + 1) }
{
    let start = nanos(rt);
    let outcome = ask(rt, store, seat, command, &task.plan.policy, cleaner);
    let end = nanos(rt);
    work.note(task, command, start, end, &outcome);
    outcome
}

/// Gets the object of a number.
fn get<F: Fleet, B: Naming, R: Wait + Clock>(
    rt: &R,
    store: &Store<F, B>,
    cleaner: &Cleaner,
    seat: &mut Seat<B>,
    work: &mut Work,
    task: &Task,
    number: u64,
) -> Result<Reply, CallFault>
    ensures number { seat.new.number ≡ seat.old.number }
    ensures count { seat.old.count ≤ seat.new.count }
    ensures one { OnOk result (seat.new.count ≡ seat.old.count + 1) }
{
    match object_of(task.plan.alloc, number) {
        Ok(key) => make_call(rt, store, cleaner, seat, work, task, &Command::Get(key)),
        Err(_) => Err(CallFault::Refused(Refusal::NoMemory)),
    }
}

/// The put of a value that no other call writes.
fn put_command(work: &mut Work, task: &Task, number: u64, when: If) -> Result<Command, CallFault> {
    let Task { plan, thread } = *task;
    work.values = work.values.saturating_add(1);
    let Ok(key) = object_of(plan.alloc, number) else {
        return Err(CallFault::Refused(Refusal::NoMemory));
    };
    let Ok(bytes) = fresh_value(plan.alloc, thread, work.values, plan.length) else {
        return Err(CallFault::Refused(Refusal::NoMemory));
    };
    if bytes.len() > MAX_VALUE_LEN {
        return Err(CallFault::Refused(Refusal::TooBig));
    }
    Ok(Command::Put(key, Value::new(bytes), when))
}

/// Puts a fresh value under the key of a number.
fn put<F: Fleet, B: Naming, R: Wait + Clock>(
    rt: &R,
    store: &Store<F, B>,
    cleaner: &Cleaner,
    seat: &mut Seat<B>,
    work: &mut Work,
    task: &Task,
    number: u64,
    when: If,
) -> Result<Reply, CallFault>
    ensures number { seat.new.number ≡ seat.old.number }
    ensures count { seat.old.count ≤ seat.new.count }
    ensures one { OnOk result (seat.new.count ≡ seat.old.count + 1) }
{
    match put_command(work, task, number, when) {
        Ok(command) => make_call(rt, store, cleaner, seat, work, task, &command),
        Err(fault) => Err(fault),
    }
}

/// The condition under which a put changes what was read.
fn unchanged(reply: &Reply) -> If {
    match reply {
        Reply::Found(version, _) => If::Version(version.get()),
        _ => If::Absent,
    }
}

/// The number of a key that was made.
fn draw(work: &mut Work, keys: &Keys, made: &AtomicU64) -> u64 {
    keys.draw(&mut work.words, made.load(Ordering::SeqCst).max(1))
}

/// Gets an object, and puts another value if it still has the version that was read.
fn modify<F: Fleet, B: Naming, R: Wait + Clock>(
    rt: &R,
    store: &Store<F, B>,
    cleaner: &Cleaner,
    seat: &mut Seat<B>,
    work: &mut Work,
    task: &Task,
    number: u64,
) -> Result<u64, CallFault>
    ensures number { seat.new.number ≡ seat.old.number }
    ensures count { seat.old.count ≤ seat.new.count }
    ensures made { IfOk result (λ n. (n ≤ 2) × (seat.new.count ≡ seat.old.count + n)) }
{
    let read = get(rt, store, cleaner, seat, work, task, number)?;
    let when = unchanged(&read);
    put(rt, store, cleaner, seat, work, task, number, when)?;
    Ok(2)
}

/// Makes the next operation. The result is how many calls it took, each of which was answered.
pub(crate) fn operate<F: Fleet, B: Naming, R: Wait + Clock>(
    rt: &R,
    store: &Store<F, B>,
    cleaner: &Cleaner,
    seat: &mut Seat<B>,
    work: &mut Work,
    task: &Task,
    keys: &Keys,
    made: &AtomicU64,
) -> Result<u64, CallFault>
    ensures number { seat.new.number ≡ seat.old.number }
    ensures count { seat.old.count ≤ seat.new.count }
    ensures made { IfOk result (λ n. (n ≤ 2) × (seat.new.count ≡ seat.old.count + n)) }
{
    let act = task.plan.load.act(work.words.below(100));
    match act {
        Act::Read => {
            let number = draw(work, keys, made);
            get(rt, store, cleaner, seat, work, task, number)?;
            Ok(1)
        }
        Act::Update => {
            let number = draw(work, keys, made);
            put(rt, store, cleaner, seat, work, task, number, If::Any)?;
            Ok(1)
        }
        Act::Insert => {
            let number = made.fetch_add(1, Ordering::SeqCst);
            put(rt, store, cleaner, seat, work, task, number, If::Absent)?;
            Ok(1)
        }
        Act::Modify => {
            let number = draw(work, keys, made);
            modify(rt, store, cleaner, seat, work, task, number)
        }
    }
}
