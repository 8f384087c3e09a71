//! What a client has to do.

ghost use Rattle.std.specs.Prelude.{◌≡◌, IfOk, OnOk, decimal};
ghost use Rattle.store_clients.specs.Tasks.{key_of, put_of, get_of, with_value};

use counted_calls::master::{Command, If};
use entry::{Key, KeyFault, NoMemory, Value};
use itoa::Buffer;
use std::alloc::Global;

/// The table that clients write.
const TABLE: u64 = 1;

/// Which client it is, from 0, and how many rounds it has to make.
#[derive(Clone, Copy)]
pub(crate) struct Task {
    pub(crate) alloc: Global,
    pub(crate) client: usize,
    pub(crate) rounds: u64,
}

/// The two commands of a client's rounds. Its key is made once for each of them.
#[derive(Drop)]
pub(crate) struct Asked {
    alloc: Global,
    client: usize,
    /// The round whose put it is.
    round: u64,
    put: Command,
    get: Command,
    ghost puts: { put ≡ put_of client round },
    ghost gets: { get ≡ get_of client },
}

impl Asked {
    /// The commands of a client. The put is that of round 0.
    pub(crate) fn new(alloc: Global, client: usize) -> Result<Asked, NoMemory>
        ensures { IfOk result (λ asked. (asked.client ≡ client) × (asked.round ≡ 0)) }
    {
        let get = Command::Get(key(alloc, client)?);
        let put = Command::Put(key(alloc, client)?, digits(alloc, 0)?, If::Any);
        Ok(Asked {
            alloc,
            client,
            round: 0,
            put,
            get,
        })
    }

    /// From now on the put is that of this round.
    pub(crate) fn go_on(&mut self, round: u64) -> Result<(), NoMemory>
        ensures client { self.new.client ≡ self.old.client }
        ensures round { OnOk result (self.new.round ≡ round) }
    {
        let value = digits(self.alloc, round)?;
        self.round = round;
        set_value(&mut self.put, value);
        Ok(())
    }

    /// The put, which has the round's number as value.
    pub(crate) fn put(&self) -> &Command
        ensures { result.now ≡ put_of self.entry.now.client self.entry.now.round }
    {
        &self.put
    }

    /// The get of each round.
    pub(crate) fn get(&self) -> &Command
        ensures { result.now ≡ get_of self.entry.now.client }
    {
        &self.get
    }
}

/// Gives a put another value. A command of another kind stays.
fn set_value(command: &mut Command, value: Value)
    ensures { command.new ≡ with_value command.old value }
{
    match command {
        Command::Put(_, old, _) => *old = value,
        Command::Get(_) => {}
        Command::Delete(_) => {}
    }
}

/// The decimal digits of a number.
fn digits(alloc: Global, number: u64) -> Result<Value, NoMemory>
    ensures { IfOk result (λ v. v ≡ decimal number) }
{
    let mut buffer = Buffer::new();
    Value::from_slice(alloc, buffer.format(number).as_bytes())
}

/// The key that a client writes: `c` and the client's number.
fn key(alloc: Global, client: usize) -> Result<Key, NoMemory>
    ensures { IfOk result (λ k. k ≡ key_of client) }
{
    let mut buffer = Buffer::new();
    let mut name = Vec::from_slice(alloc, b"c")?;
    name.extend_from_slice(buffer.format(client).as_bytes())?;
    match Key::new(alloc, TABLE, name.as_slice()) {
        Ok(key) => Ok(key),
        Err(KeyFault::NoMemory) => Err(NoMemory),
        // The name is neither empty nor too long.
        Err(_) => unreachable!(),
    }
}
