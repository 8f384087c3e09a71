//! A master without its fleet: its core, and what steps do to the core. The crate defines nothing, and exports the
//! names of five other crates: `master_state` (the core), `master_commands` (commands, and the loading of a core),
//! `master_rolls` (rolls), `master_space` (compaction and cleaning) and `master_failover` (pushes).
#![tactic(auto)]

pub use cleaner::{PassFault, Survivors};
pub use hash_index::Place;
pub use master_commands::{
    accept, answer, answer_to, apply, begin_history, can_finish, load, loading_goes_on, presize,
    would,
};
pub use master_failover::{
    NewHead, Push, begin_opening, failover_left, ledger_of_turn, new_head, next_push, opened,
    push_op, raised, took, victims_of_commit,
};
pub use master_rolls::{begin_roll, mark, next_push_for};
pub use master_space::{
    ObjectList, begin_clean, choose, compact_segment, copy, freed, image_len_of, is_copying,
    kept_bytes_of, next_step, opening_len_of, pending_step, recount, seal_op, sealed,
    sorted_objects, sorted_sizes, tallies_of, tally_of, to_free, to_seal,
};
pub use master_state::{
    Config, ConfigFault, Core, KeyHasher, Part, Posting, Refusal, Secret, Step, StepAnswer,
};
pub use tally::Tally;
