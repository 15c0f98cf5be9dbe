//! The words of a line.
ghost use Rattle.std.specs.Prelude.{◌≡◌};
ghost use Rattle.std.specs.Iterator.{YieldsFirstRef, item_count};
ghost use Rattle.taxi_text.specs.Words.{words_of, words_left};

use crate::part::first_part;

/// The pieces of a line between its blanks, as slices of it. No byte is copied.
#[derive(Drop)]
pub struct WordSlices<'a> {
    // None once the last piece was given.
    rest: Option<&'a [u8]>,
}

/// The pieces of a line between its blanks. A line with k blanks has k + 1 pieces, some of them empty.
pub fn words(line: &[u8]) -> WordSlices<'_>
    ensures { words_left result ≡ words_of line.now }
{
    WordSlices { rest: Some(line) }
}

impl<'a> Iterator for WordSlices<'a> {
    type Item = &'a [u8];

    ghost next_gives = { YieldsFirstRef words_left };

    ghost remaining = { item_count words_left };

    fn next(&mut self) -> Option<&'a [u8]> {
        let (word, rest) = first_part(b' ', self.rest?);
        self.rest = rest;
        Some(word)
    }
}
