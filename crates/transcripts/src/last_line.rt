//! The line that ends a transcript.
ghost use Rattle.std.specs.Prelude.{◌≡◌};
ghost use Rattle.transcripts.specs.Runs.{done_line};

use itoa::Buffer;
use taxi_text::ShortText;

/// The last line of a transcript, with the number of commands.
pub fn done_line(count: u64) -> ShortText
    ensures { result ≡ done_line count }
{
    let mut digits = Buffer::new();
    let mut text = ShortText::new();
    text.push(b"done ");
    text.push(digits.format(count).as_bytes());
    text.push(b"\n");
    text
}
