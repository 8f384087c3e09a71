//! The commands of lines with raw bytes.

ghost use Rattle.std.specs.Prelude.{◌≡◌, ◌↔◌, IsTrue, codes};
ghost use Rattle.raw_lines.specs.Cutting.{ReadsBehind, ReadsRaw};

use crate::rest::Rest;
use lines::{CommandLine, KeyWord};

/// The command of a text, or `None` if it has none.
#[tactic(auto, using(crate::proofs::Behind::reads_as, crate::proofs::Behind::unnamed, crate::proofs::Behind::unspaced))]
pub(crate) fn parse_command(text: &[u8]) -> Option<CommandLine<'_>>
    ensures { ReadsRaw text.entry.now result }
{
    let mut rest = Rest::of(text);
    match rest.until(b' ')? {
        name if is(name, "put") => put(rest),
        name if is(name, "new") => new(rest),
        name if is(name, "cas") => cas(rest),
        name if is(name, "get") => get(rest),
        name if is(name, "del") => del(rest),
        _ => None,
    }
}

/// Whether the word is this text.
fn is(word: &[u8], text: &str) -> bool
    ensures { IsTrue result ↔ (word.now ≡ text.now) }
{
    word == text.as_bytes()
}

/// What is behind `put` as a table, a key and a value.
fn put(mut rest: Rest<'_>) -> Option<CommandLine<'_>>
    ensures { ReadsBehind (codes "put") rest.entry result }
{
    let table = rest.number(b' ')?;
    let key = rest.key()?;
    let value = rest.value()?;
    let key = KeyWord { bytes: key };
    Some(CommandLine::Put { table, key, value })
}

/// What is behind `new` as a table, a key and a value.
fn new(mut rest: Rest<'_>) -> Option<CommandLine<'_>>
    ensures { ReadsBehind (codes "new") rest.entry result }
{
    let table = rest.number(b' ')?;
    let key = rest.key()?;
    let value = rest.value()?;
    let key = KeyWord { bytes: key };
    Some(CommandLine::New { table, key, value })
}

/// What is behind `cas` as a table, a key, a version and a value.
fn cas(mut rest: Rest<'_>) -> Option<CommandLine<'_>>
    ensures { ReadsBehind (codes "cas") rest.entry result }
{
    let table = rest.number(b' ')?;
    let key = rest.key()?;
    let version = rest.number(b' ')?;
    let value = rest.value()?;
    let key = KeyWord { bytes: key };
    Some(CommandLine::Cas {
        table,
        key,
        version,
        value,
    })
}

/// What is behind `get` as a table and a key.
fn get(mut rest: Rest<'_>) -> Option<CommandLine<'_>>
    ensures { ReadsBehind (codes "get") rest.entry result }
{
    let table = rest.number(b' ')?;
    let key = rest.last_key()?;
    let key = KeyWord { bytes: key };
    Some(CommandLine::Get { table, key })
}

/// What is behind `del` as a table and a key.
fn del(mut rest: Rest<'_>) -> Option<CommandLine<'_>>
    ensures { ReadsBehind (codes "del") rest.entry result }
{
    let table = rest.number(b' ')?;
    let key = rest.last_key()?;
    let key = KeyWord { bytes: key };
    Some(CommandLine::Del { table, key })
}
