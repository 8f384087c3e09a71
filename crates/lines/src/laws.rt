//! Laws about lines, for the proofs of callers.

ghost use Rattle.lines.specs.Grammar.{EachTextSaysOneLine};

/// No text is the text of two different lines.
pub fn one_line()
    ensures { EachTextSaysOneLine }
{}
