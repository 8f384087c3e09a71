//! What each line makes of a node, and the line `clients`.
//!
//! `serve_clients` lends the master of a node to clients over a store, beside a cleaner, and takes it back.
//! `specs/Clients.antt` says what comes of that, and `specs/Lines.antt` says what any line makes of a node
//! (`MakesLine`). The crate stands on `cluster` and on `store_clients`, of which `cluster` itself uses nothing.
#![tactic(auto)]

mod clients;

pub use clients::{Served, serve_clients};
pub use cluster;
pub use store_clients;
pub use store_clients::locked_log;
