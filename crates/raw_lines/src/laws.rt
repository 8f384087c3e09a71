//! Laws about lines, for the proofs of callers.

ghost use Rattle.raw_lines.specs.Raw.{EachPlainTextSaysOneLine};

/// No text is the text of a line without a key and of another line.
pub fn one_plain_line()
    ensures { EachPlainTextSaysOneLine }
{}
