//! What is printed.

use std::io::Write;
use store_lines::master::{History, ReplyRef};
use store_lines::{Answer, write_answer};

/// Prints an answer. If it can't be written, the output lacks it.
pub fn print<O: Write>(writer: &mut O, answer: &Answer) {
    let _ = write_answer(writer, answer);
}

/// Prints the replies of a history, in order.
pub fn print_history<O: Write>(writer: &mut O, history: &History) {
    let _ = writeln!(writer, "{} records", history.len());
    for place in 0..history.len() {
        if let Some(record) = history.get(place) {
            print_reply(writer, &record.reply);
        }
    }
}

fn print_reply<O: Write>(writer: &mut O, reply: &ReplyRef<'_>) {
    let _ = match reply {
        ReplyRef::Ok(version) => writeln!(writer, "  ok {}", version.get()),
        ReplyRef::None => writeln!(writer, "  none"),
        ReplyRef::Found(version, _) => writeln!(writer, "  found {}", version.get()),
        ReplyRef::Mismatch(_) => writeln!(writer, "  mismatch"),
    };
}
