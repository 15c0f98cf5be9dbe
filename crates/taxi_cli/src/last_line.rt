//! The line that ends a check.
ghost use Rattle.std.specs.Prelude.{◌≡◌};
ghost use Rattle.taxi_cli.specs.Lines.{ok_line, wrong_line};

use itoa::Buffer;
use taxi_text::ShortText;
use transcript_check::Failure;

/// No fault is found, with the number of blocks.
pub(crate) fn ok_line(count: u64) -> ShortText
    ensures { result ≡ ok_line count }
{
    let mut digits = Buffer::new();
    let mut text = ShortText::new();
    text.push(b"ok ");
    text.push(digits.format(count).as_bytes());
    text.push(b"\n");
    text
}

/// The first block that fails, counted from 1, and why.
pub(crate) fn wrong_line(number: u64, why: Failure) -> ShortText
    ensures { result ≡ wrong_line number why }
{
    let mut digits = Buffer::new();
    let mut text = ShortText::new();
    text.push(b"wrong ");
    text.push(digits.format(number).as_bytes());
    text.push(b" ");
    text.push(why.word());
    text.push(b"\n");
    text
}
