//! A command of a file with its numbers, and the members that tell of it.
ghost use Rattle.std.specs.Prelude.{◌≡◌, ◌++◌, ◌∷◌, [], codes, decimal, map, OnOk};
ghost use Rattle.taxi_text.specs.Words.{words_of};
ghost use Rattle.serde_json.specs.Written.{compact_text};
ghost use Rattle.reply_json.specs.Values.{text_value, list_value};

use crate::words::words_text;
use taxi_base::Memory;
use taxi_text::{push_bytes, push_number};

/// A command of a file: which of the commands it is and which of all lines, and the text of its line.
#[derive(Clone, Copy)]
pub(crate) struct Numbered<'a> {
    pub(crate) command: u64,
    pub(crate) line: u64,
    pub(crate) text: &'a [u8],
}

/// Begins an object by the number of the command.
pub(crate) fn write_command(command: &Numbered, out: &mut Vec<u8>) -> Result<(), Memory>
    ensures { OnOk result (out.new.items ≡ (out.old.items ++ codes "{\"command\":") ++ decimal command.now.command) }
{
    push_bytes(out, b"{\"command\":")?;
    push_number(out, command.command)
}

/// Goes on with the number of the line.
pub(crate) fn write_line(command: &Numbered, out: &mut Vec<u8>) -> Result<(), Memory>
    ensures { OnOk result (out.new.items ≡ (out.old.items ++ codes ",\"line\":") ++ decimal command.now.line) }
{
    push_bytes(out, b",\"line\":")?;
    push_number(out, command.line)
}

/// Ends with the words of the line.
pub(crate) fn write_words(command: &Numbered, out: &mut Vec<u8>) -> Result<(), Memory>
    ensures { OnOk result (out.new.items ≡ ((out.old.items ++ codes ",\"words\":") ++ compact_text (list_value (map text_value (words_of command.now.text.now)))) ++ 125 ∷ []) }
{
    let words = words_text(*out.allocator(), command.text)?;
    push_bytes(out, b",\"words\":")?;
    push_bytes(out, words.as_bytes())?;
    push_bytes(out, b"}")
}
