//! A log whose backups may fail, as bytes on the backups of a fleet.
//!
//! A replica of `log_laws` has an opening, objects and tombstones, and a length. Here `specs/` says what bytes
//! such a replica has, and `laws` has the theorems on these; the crate has no other code. A fleet *spells* what the
//! model shows of a master (`IsSpelled`) if each replica has the bytes of its text, header first, and if the registry
//! has the same least head. The crate promises to the layer above:
//! - A reader of the bytes gets the text that was written (`TextsAreSpelled`, `SpelledIsRead`), and the bytes have the
//!   length that the model counts (`LengthIsSame`).
//! - A fleet never answers Wrong to an op that fits in the model. It spells what the model shows after the op, also if
//!   the op ends in a fault (`OpIsNeverWrong`, `TakenIsSpelled`, `FaultIsSpelled`).
//! - Each choice of the newest log in bytes is one of the model, with the same bag, and each of the model is one in
//!   bytes (`ChoiceIsSpelled`, `SpelledIsChoice`). If head and segments both survive in bytes, they do so in the model
//!   (`SurvivesInModel`). `newest_opened` is the newest opened head (`NewestIsOpened`).
//! - A picture that spells a sound one is sound (`SpelledIsSound`).
//! - A log whose heads are segments writes nothing but segments (`OpLeavesSegments`).
//! - A fleet spells what the model shows after an op of a master, also of one that is loading (`OkIsSpelled`,
//!   `FaultIsEither`), and it never answers Wrong (`HeldOpIsNeverWrong`).
//! - Each backup that took the head's Open holds the head's durable units (`UnitsAreHeld`).
//!
//! This crate uses `log_laws`, `replica`, `segment` and `entry`.
#![tactic(auto)]

mod laws;
