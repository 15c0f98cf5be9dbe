//! One line of a block, made word by word without taking memory.
ghost use Rattle.std.specs.Prelude.{◌≡◌, ◌+◌, ◌≤◌, ◌∷◌, ◌++◌, [], length, decimal};
ghost use Rattle.replies.specs.Texts.{and_word};

use itoa::Buffer;
use taxi_text::ShortText;

/// A line's first word.
pub(crate) fn begin_line(word: &[u8]) -> ShortText
    requires { length word.now ≤ 64 }
    ensures { result ≡ word.now }
{
    let mut text = ShortText::new();
    text.push(word);
    text
}

/// A blank and one more word.
pub(crate) fn push_word(text: &mut ShortText, word: &[u8])
    requires { length text.old + 1 + length word.now ≤ 64 }
    ensures { text.new ≡ and_word text.old word.now }
{
    text.push(b" ");
    text.push(word);
}

/// A blank and a number, which has at most 10 digits.
pub(crate) fn push_decimal(text: &mut ShortText, number: u32)
    requires { length text.old + 11 ≤ 64 }
    ensures text { text.new ≡ and_word text.old (decimal number) }
    ensures length { length text.new ≤ length text.old + 11 }
{
    let mut digits = Buffer::new();
    push_word(text, digits.format(number).as_bytes());
}

/// The line feed.
pub(crate) fn end_line(text: &mut ShortText)
    requires { length text.old + 1 ≤ 64 }
    ensures { text.new ≡ text.old ++ 10 ∷ [] }
{
    text.push(b"\n");
}
