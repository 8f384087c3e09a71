//! Laws about the texts of ops, for the proofs of callers.

ghost use Rattle.op_text.specs.OpText.{HasOneText, ReadsBack};

/// An op is read back from its text.
pub fn one_op()
    ensures { ReadsBack }
{}

/// Bytes that are read as an op are the op's text. So no op has a second text.
pub fn one_text()
    ensures { HasOneText }
{}
