//! Parsing lines.

ghost use Rattle.std.specs.Prelude.{◌≡◌, ◌≢◌, ◌∷◌, ◌↔◌, [], ℕ, Bool, IfErr, IfOk, IfSome, IsErr, IsNone, IsTrue, codes};
ghost use Rattle.lines.specs.Reasons.{HasReason};
ghost use Rattle.lines.specs.Grammar.{IsIdle, IsOrder, LineValue, Says, fate_word, order_words, shown_line};
ghost use Rattle.lines.specs.Words.{AreNumber, IsNoLongName, ReadsOrder, ReadsWords};
ghost use Rattle.lines.specs.declared.line.ReplayOrder.{ReplayOrder};

use crate::command::{CommandLine, KeyWord};
use crate::line::{Line, ReplayOrder};
use crate::reason::Reason;
use crate::why::reason_of;
use crate::words::Words;

/// The most clients of a line. Each has a seat of the store, and the store has one seat more.
const MAX_CLIENTS: u64 = 63;

/// The most rounds of a client.
const MAX_ROUNDS: u64 = 1_000_000;

/// The most workers of a recovery.
const MAX_WORKERS: u64 = 64;

/// The most seglets of a master.
const MAX_SEGLETS: u64 = 4_294_967_296;

/// The most steps of a cleaner.
const MAX_STEPS: u64 = 65_536;

/// Parses the text of a line, without its line feed. With Err the line is bad for this reason.
///
/// It takes no memory: a key and a value are parts of the text. It doesn't look at the length of the text, which
/// `next_line` bounds.
pub fn parse_line(text: &[u8]) -> Result<Line<'_>, Reason>
    ensures sound { IfOk result (λ line. Says text.entry.now (shown_line line)) }
    ensures complete { IsErr result → (line : LineValue) → ¬ Says text.entry.now line }
    ensures reason { IfErr result (HasReason text.entry.now) }
{
    if is_idle(text) {
        return Ok(Line::Idle);
    }
    match parse_words(Words::of(text)) {
        Some(line) => Ok(line),
        None => Err(reason_of(text)),
    }
}

/// Whether a line with this text does nothing.
fn is_idle(text: &[u8]) -> bool
    ensures { IsTrue result ↔ IsIdle text.now }
{
    matches!(text, [] | [b'#', ..])
}

/// Parses the words of a line that does something.
// Of the functions that are called here only `get` is inlined, since each inlined one has a line of its own to clear.
fn parse_words(mut words: Words<'_>) -> Option<Line<'_>>
    ensures { ReadsWords words.entry result }
{
    match words.next_word()? {
        name if is(name, "put") => put(words),
        name if is(name, "get") => get(words),
        name if is(name, "new") => new(words),
        name if is(name, "cas") => cas(words),
        name if is(name, "del") => del(words),
        name if is(name, "hex") => hex(words),
        name if is(name, "list") => list(words),
        name if is(name, "compact") => compact(words),
        name if is(name, "stop") => stop(words),
        name if is(name, "lose") => lose(words),
        name if is(name, "fault") => fault(words),
        name if is(name, "clean") => clean(words),
        name if is(name, "begin") => begin(words),
        name if is(name, "recover") => recover(words),
        name if is(name, "clients") => clients(words),
        name if is(name, "format") => format(words),
        name if is(name, "seglets") => seglets(words),
        name if is(name, "tend") => tend(words),
        name => only_name(name, words),
    }
}

/// Whether the word is this text.
#[inline(always)]
fn is(word: &[u8], text: &str) -> bool
    ensures { IsTrue result ↔ (word.now ≡ text.now) }
{
    word == text.as_bytes()
}

/// The words behind `put` as a table, a key and a value.
#[tactic(auto, using(crate::proofs::Spelling::decimal_is_word))]
#[inline(never)]
fn put(mut words: Words<'_>) -> Option<Line<'_>>
    ensures { ReadsWords (codes "put" ∷ words.entry) result }
{
    let table = words.number()?;
    let key = words.key()?;
    let value = words.last()?;
    let key = KeyWord { bytes: key };
    Some(Line::Command(CommandLine::Put { table, key, value }))
}

/// The words behind `new` as a table, a key and a value.
#[tactic(auto, using(crate::proofs::Spelling::decimal_is_word))]
#[inline(never)]
fn new(mut words: Words<'_>) -> Option<Line<'_>>
    ensures { ReadsWords (codes "new" ∷ words.entry) result }
{
    let table = words.number()?;
    let key = words.key()?;
    let value = words.last()?;
    let key = KeyWord { bytes: key };
    Some(Line::Command(CommandLine::New { table, key, value }))
}

/// The words behind `cas` as a table, a key, a version and a value.
#[tactic(auto, using(crate::proofs::Spelling::decimal_is_word))]
#[inline(never)]
fn cas(mut words: Words<'_>) -> Option<Line<'_>>
    ensures { ReadsWords (codes "cas" ∷ words.entry) result }
{
    let table = words.number()?;
    let key = words.key()?;
    let version = words.number()?;
    let value = words.last()?;
    let key = KeyWord { bytes: key };
    Some(Line::Command(CommandLine::Cas {
        table,
        key,
        version,
        value,
    }))
}

/// The words behind `get` as a table and a key.
#[tactic(auto, using(crate::proofs::Spelling::decimal_is_word))]
fn get(mut words: Words<'_>) -> Option<Line<'_>>
    ensures { ReadsWords (codes "get" ∷ words.entry) result }
{
    let table = words.number()?;
    let key = words.last_key()?;
    let key = KeyWord { bytes: key };
    Some(Line::Command(CommandLine::Get { table, key }))
}

/// The words behind `del` as a table and a key.
#[inline(never)]
fn del(mut words: Words<'_>) -> Option<Line<'_>>
    ensures { ReadsWords (codes "del" ∷ words.entry) result }
{
    let table = words.number()?;
    let key = words.last_key()?;
    let key = KeyWord { bytes: key };
    Some(Line::Command(CommandLine::Del { table, key }))
}

/// The word behind `hex` as the number of a segment.
#[tactic(auto, using(crate::proofs::Spelling::decimal_is_word))]
#[inline(never)]
fn hex(words: Words<'_>) -> Option<Line<'_>>
    ensures { ReadsWords (codes "hex" ∷ words.entry) result }
{
    let segment = only_number(words)?;
    Some(Line::Hex { segment })
}

/// The word behind `list` as a table.
#[tactic(auto, using(crate::proofs::Spelling::decimal_is_word))]
#[inline(never)]
fn list(words: Words<'_>) -> Option<Line<'_>>
    ensures { ReadsWords (codes "list" ∷ words.entry) result }
{
    let table = only_number(words)?;
    Some(Line::List { table })
}

/// The word behind `compact` as the number of a segment.
#[tactic(auto, using(crate::proofs::Spelling::decimal_is_word))]
#[inline(never)]
fn compact(words: Words<'_>) -> Option<Line<'_>>
    ensures { ReadsWords (codes "compact" ∷ words.entry) result }
{
    let segment = only_number(words)?;
    Some(Line::Compact { segment })
}

/// The word behind `stop` as how many takes are left.
#[tactic(auto, using(crate::proofs::Spelling::decimal_is_word))]
#[inline(never)]
fn stop(words: Words<'_>) -> Option<Line<'_>>
    ensures { ReadsWords (codes "stop" ∷ words.entry) result }
{
    let takes = only_number(words)?;
    Some(Line::Stop { takes })
}

/// The words behind `fault` as the number of the take that ends in the fault, and whether its op is taken.
#[tactic(auto, using(crate::proofs::Spelling::decimal_is_word))]
#[inline(never)]
fn fault(mut words: Words<'_>) -> Option<Line<'_>>
    ensures { ReadsWords (codes "fault" ∷ words.entry) result }
{
    let takes = words.count(u64::MAX)?;
    match fate(words) {
        Some(taken) => Some(Line::Fault { takes, taken }),
        None => None,
    }
}

/// Whether an op is taken, as the words say.
fn fate(mut words: Words<'_>) -> Option<bool>
    ensures sound { IfSome result (λ taken. words.entry ≡ fate_word taken ∷ []) }
    ensures complete { IsNone result → (taken : Bool) → words.entry ≢ fate_word taken ∷ [] }
{
    let word = words.next_word()?;
    words.end()?;
    match word {
        word if is(word, "taken") => Some(true),
        word if is(word, "lost") => Some(false),
        _ => None,
    }
}

/// The word behind `lose` as the number of a backup.
#[inline(never)]
fn lose(words: Words<'_>) -> Option<Line<'_>>
    ensures { ReadsWords (codes "lose" ∷ words.entry) result }
{
    let backup = only_number(words)?;
    Some(Line::Lose { backup })
}

/// The words behind `clean` as the numbers of segments.
#[inline(never)]
fn clean(words: Words<'_>) -> Option<Line<'_>>
    ensures { ReadsWords (codes "clean" ∷ words.entry) result }
{
    match words.numbers() {
        Some(segments) => Some(Line::Clean { segments }),
        None => None,
    }
}

/// The words behind `begin` as the numbers of segments.
#[inline(never)]
fn begin(words: Words<'_>) -> Option<Line<'_>>
    ensures { ReadsWords (codes "begin" ∷ words.entry) result }
{
    match words.numbers() {
        Some(segments) => Some(Line::Begin { segments }),
        None => None,
    }
}

/// The words behind `recover` as the order of the replay.
#[inline(never)]
fn recover(words: Words<'_>) -> Option<Line<'_>>
    ensures { ReadsWords (codes "recover" ∷ words.entry) result }
{
    match order(words) {
        Some(order) => Some(Line::Recover { order }),
        None => None,
    }
}

/// The order of a replay that the words name.
fn order(mut words: Words<'_>) -> Option<ReplayOrder>
    ensures { ReadsOrder words.entry result }
{
    match words.next_word() {
        Some(word) if is(word, "threads") => workers(words),
        Some(word) if is(word, "reverse") => reverse(words),
        Some(_) => None,
        None => Some(ReplayOrder::Forward),
    }
}

/// The words behind `reverse`: there must be none.
fn reverse(words: Words<'_>) -> Option<ReplayOrder>
    ensures { ReadsOrder (codes "reverse" ∷ words.entry) result }
{
    words.end()?;
    Some(ReplayOrder::Reverse)
}

/// The words behind `threads` as how many workers there are.
fn workers(mut words: Words<'_>) -> Option<ReplayOrder>
    ensures { ReadsOrder (codes "threads" ∷ words.entry) result }
{
    let workers = words.count(MAX_WORKERS)?;
    words.end()?;
    Some(ReplayOrder::Threads(workers))
}

/// The words behind `clients` as how many clients there are, and how many rounds and passes.
#[tactic(auto, using(crate::proofs::Spelling::decimal_is_word))]
#[inline(never)]
fn clients(mut words: Words<'_>) -> Option<Line<'_>>
    ensures { ReadsWords (codes "clients" ∷ words.entry) result }
{
    let clients = words.count(MAX_CLIENTS)?;
    let rounds = words.count(MAX_ROUNDS)?;
    let passes = only_number(words)?;
    Some(Line::Clients {
        clients,
        rounds,
        passes,
    })
}

/// The word behind `format`, which must be 2.
#[inline(never)]
fn format(mut words: Words<'_>) -> Option<Line<'_>>
    ensures { ReadsWords (codes "format" ∷ words.entry) result }
{
    let is_two = is(words.next_word()?, "2");
    words.end()?;
    is_two.then_some(Line::Format)
}

/// The word behind `seglets` as how many seglets there are.
#[inline(never)]
fn seglets(mut words: Words<'_>) -> Option<Line<'_>>
    ensures { ReadsWords (codes "seglets" ∷ words.entry) result }
{
    let seglets = words.count(MAX_SEGLETS)?;
    words.end()?;
    Some(Line::Seglets { seglets })
}

/// The word behind `tend` as how many steps there are.
#[inline(never)]
fn tend(mut words: Words<'_>) -> Option<Line<'_>>
    ensures { ReadsWords (codes "tend" ∷ words.entry) result }
{
    let steps = words.count(MAX_STEPS)?;
    words.end()?;
    Some(Line::Tend { steps })
}

/// The words as one number.
fn only_number(mut words: Words<'_>) -> Option<u64>
    ensures sound { IfSome result (λ n. AreNumber words.entry n) }
    ensures complete { IsNone result → (n : ℕ) → ¬ AreNumber words.entry n }
{
    let number = words.number()?;
    words.end()?;
    Some(number)
}

/// The line that has this name and no word behind it.
#[inline(never)]
fn only_name<'a>(name: &[u8], words: Words<'a>) -> Option<Line<'a>>
    requires { IsNoLongName name.now }
    ensures { ReadsWords (name.now ∷ words.entry) result }
{
    words.end()?;
    match name {
        name if is(name, "roll") => Some(Line::Roll),
        name if is(name, "beginroll") => Some(Line::BeginRoll),
        name if is(name, "push") => Some(Line::Push),
        name if is(name, "log") => Some(Line::Log),
        name if is(name, "room") => Some(Line::Room),
        name if is(name, "segments") => Some(Line::Segments),
        name if is(name, "live") => Some(Line::Live),
        name if is(name, "needs") => Some(Line::Needs),
        name if is(name, "crash") => Some(Line::Crash),
        name if is(name, "will") => Some(Line::Will),
        name if is(name, "holdings") => Some(Line::Holdings),
        name if is(name, "copy") => Some(Line::Copy),
        name if is(name, "seal") => Some(Line::Seal),
        name if is(name, "free") => Some(Line::Free),
        _ => None,
    }
}
