//! A store for whoever counts its calls, and looks at no reply.
//!
//! `call` makes one call: with Ok its seat made just one record more. `take_back` closes a store, always gives its
//! master, and answers whether the given seats count their records since the store was made. The promises of clients
//! rest on these two calls. Wrong programs that would break those promises are tried here, since this crate is proved
//! fast.
//!
//! The crate stands on `locked_log`. It waits, and starts no thread.
#![tactic(auto)]

mod calling;
mod closing;

pub use calling::call;
pub use closing::take_back;
pub use locked_log;
pub use locked_log::master;
