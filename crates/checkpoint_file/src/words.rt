//! Words with one blank between two, written at the end of a text.
ghost use Rattle.std.specs.Prelude.{◌≡◌, ◌≤◌, ◌∷◌, ◌++◌, OnOk, length, map, flat_map, decimal};
ghost use Rattle.replies.specs.Texts.{line_text};

use airport_words::push_word;
use itoa::Buffer;
use taxi_base::Memory;
use taxi_text::{ShortText, push_bytes};

/// Adds a line of the first word and the others, with one blank between two, and ends it.
pub(crate) fn write_line(out: &mut Vec<u8>, first: &[u8], words: &[&[u8]]) -> Result<(), Memory>
    ensures { OnOk result (out.new.items ≡ out.old.items ++ line_text (first.now ∷ map (λ word. word.now) words.now)) }
{
    push_bytes(out, first)?;
    write_words(out, words)?;
    push_bytes(out, b"\n")?;
    Ok(())
}

/// Adds words, each behind a blank.
pub(crate) fn write_words(out: &mut Vec<u8>, words: &[&[u8]]) -> Result<(), Memory>
    ensures { OnOk result (out.new.items ≡ out.old.items ++ flat_map (λ word. 32 ∷ word.now) words.now) }
{
    for word in words {
        push_word(out, word)?;
    }
    Ok(())
}

/// A number as a word.
pub(crate) fn number_text(number: u64) -> ShortText
    ensures { result ≡ decimal number }
{
    let mut digits = Buffer::new();
    let mut text = ShortText::new();
    text.push(digits.format(number).as_bytes());
    text
}
