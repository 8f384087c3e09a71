//! Laws about spellings, texts and tablets, for the proofs of callers.

ghost use Rattle.entry.specs.Format.{SpellingsArePrefixFree};
ghost use Rattle.entry.specs.Text.{TextsAreRead};
ghost use Rattle.entry.specs.Tablet.{TabletsAreDisjoint};

/// No entry's bytes begin with the bytes of another entry.
pub fn one_spelling()
    ensures { SpellingsArePrefixFree }
{}

/// A text that was made from entries is read as exactly these entries.
pub fn one_reading()
    ensures { TextsAreRead }
{}

/// No key lies in two tablets of a valid list of tablets.
pub fn one_tablet()
    ensures { TabletsAreDisjoint }
{}
