//! Numbers that lie in a text as words.

ghost use Rattle.std.specs.List.{All};
ghost use Rattle.std.specs.Iterator.{YieldsFirst, item_count};
ghost use Rattle.lines.specs.Cutting.{IsNumberWord, words_left};

use crate::words::{parse_number, split_word};
use std::fmt;

/// The numbers of a line that are still to come, in order.
///
/// They lie in the text as words, which were found to be numbers of 64 bits when the line was parsed. To read them
/// takes no memory; `collect` puts them into a list.
#[derive(Clone, Copy)]
pub struct Numbers<'a> {
    pub(crate) rest: Option<&'a [u8]>,
    ghost valid: { All IsNumberWord (words_left rest) },
}

impl<'a> Iterator for Numbers<'a> {
    ghost use Rattle.lines.specs.Numbers.{numbers_of};

    type Item = u64;

    ghost next_gives = { YieldsFirst numbers_of };

    ghost remaining = { item_count numbers_of };

    fn next(&mut self) -> Option<u64> {
        let (word, rest) = split_word(self.rest?);
        self.rest = rest;
        parse_number(word)
    }
}

impl<'a> fmt::Debug for Numbers<'a> {
    fn fmt<W: fmt::Write>(&self, f: &mut fmt::Formatter<W>) -> fmt::Result {
        f.debug_list().entries(*self).finish()
    }
}
