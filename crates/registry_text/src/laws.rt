//! Laws about the texts of a registry, for the proofs of callers.

ghost use Rattle.registry_text.specs.RecordText.{AreReadBack, AreShortTexts, HaveOneText};

/// A store is read back from its text, and a record from its own.
pub fn one_record()
    ensures { AreReadBack }
{}

/// Bytes that are read as a store are its text, and bytes that are read as a record are that record's. So nothing has a
/// second text.
pub fn one_text()
    ensures { HaveOneText }
{}

/// The texts fit a frame of a journal.
pub fn are_short()
    ensures { AreShortTexts }
{}
