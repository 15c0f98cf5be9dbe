//! The lines of a text.
ghost use Rattle.std.specs.Prelude.{◌≡◌};
ghost use Rattle.std.specs.Iterator.{YieldsFirstRef, item_count};
ghost use Rattle.std.specs.List.{list_all};
ghost use Rattle.std.specs.Str.Lines.{strip_carriage_return};
ghost use Rattle.taxi_text.specs.Lines.{lines_of, lines_left, is_skipped, is_blank_byte};

use crate::part::first_part;

/// The lines of a text, as slices of it. No byte is copied.
#[derive(Drop)]
pub struct LineSlices<'a> {
    // None once the last line was given.
    rest: Option<&'a [u8]>,
}

/// The lines of a text, each without its line feed and without one carriage return at its end. A last line without a
/// line feed is one if it has a byte.
pub fn lines(bytes: &[u8]) -> LineSlices<'_>
    ensures { lines_left result ≡ lines_of bytes.now }
{
    LineSlices { rest: Some(bytes) }
}

impl<'a> Iterator for LineSlices<'a> {
    type Item = &'a [u8];

    ghost next_gives = { YieldsFirstRef lines_left };

    ghost remaining = { item_count lines_left };

    fn next(&mut self) -> Option<&'a [u8]> {
        let (line, rest) = first_part(b'\n', self.rest?);
        self.rest = rest;
        if rest.is_none() && line.is_empty() {
            return None;
        }
        Some(without_carriage_return(line))
    }
}

// A line without the one carriage return at its end.
pub(crate) fn without_carriage_return(line: &[u8]) -> &[u8]
    ensures { result.now ≡ strip_carriage_return line.now }
{
    match line {
        [front @ .., b'\r'] => front,
        _ => line,
    }
}

/// Whether a line holds no command: it is blank, or begins with `#`.
pub fn skipped(line: &[u8]) -> bool
    ensures { result ≡ is_skipped line.now }
{
    line.starts_with(b"#") || is_blank(line)
}

fn is_blank(line: &[u8]) -> bool
    ensures { result ≡ list_all is_blank_byte line.now }
{
    line.iter().all(|b| matches!(b, b' ' | b'\t'))
}
