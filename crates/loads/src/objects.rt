//! The keys and the values of a load.

ghost use Rattle.std.specs.Prelude.{◌≡◌, ◌++◌, ◌≤◌, codes, decimal, IfOk, length};
ghost use Rattle.loads.specs.Objects.{key_of};

use entry::{Key, KeyFault, NoMemory};
use itoa::Buffer;
use std::alloc::Global;

/// The table that a load writes.
const TABLE: u64 = 1;

/// The most bytes of a value.
pub(crate) const MOST_BYTES: usize = 1_048_576;

/// The letters that fill a value.
const LETTERS: &[u8] = b"abcdefghijklmnopqrstuvwxyz0123456789ABCDEFGHIJKLMNOPQRSTUVWXYZab";

/// The key with this number: `user` and the number, in table 1.
pub fn object_of(alloc: Global, number: u64) -> Result<Key, NoMemory>
    ensures { IfOk result (λ k. k ≡ key_of number) }
{
    let mut buffer = Buffer::new();
    let mut name = Vec::from_slice(alloc, b"user")?;
    name.extend_from_slice(buffer.format(number).as_bytes())?;
    match Key::new(alloc, TABLE, name.as_slice()) {
        Ok(key) => Ok(key),
        Err(KeyFault::NoMemory) => Err(NoMemory),
        // The name is neither empty nor too long.
        Err(_) => unreachable!(),
    }
}

/// The bytes of a value that no other call of the load writes: `t`, the thread, `n` and which value of the thread it
/// is. Letters fill it up to this length, which is at most 1,048,576. A shorter length leaves the numbers whole.
pub fn fresh_value(
    alloc: Global,
    thread: u64,
    count: u64,
    length: usize,
) -> Result<Vec<u8>, NoMemory> {
    let mut buffer = Buffer::new();
    let mut value = Vec::from_slice(alloc, b"t")?;
    value.extend_from_slice(buffer.format(thread).as_bytes())?;
    value.extend_from_slice(b"n")?;
    let mut buffer = Buffer::new();
    value.extend_from_slice(buffer.format(count).as_bytes())?;
    for _ in 0..MOST_BYTES {
        let missing = length.saturating_sub(value.len()).min(LETTERS.len());
        if missing == 0 {
            return Ok(value);
        }
        match LETTERS.get(..missing) {
            Some(letters) => value.extend_from_slice(letters)?,
            None => return Ok(value),
        }
    }
    Ok(value)
}
