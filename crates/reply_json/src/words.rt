//! Strings of any bytes, and the words of a line.
ghost use Rattle.std.specs.Prelude.{◌≡◌, map, string_bytes, encode_utf8_all, IfOk};
ghost use Rattle.taxi_text.specs.Words.{words_of};
ghost use Rattle.serde_json.specs.View.{view};
ghost use Rattle.serde_json.specs.Written.{compact_text};
ghost use Rattle.reply_json.specs.Values.{text_value, list_value};

use serde_json::Value;
use std::alloc::Global;
use taxi_base::Memory;
use taxi_text::words;

/// The list of the pieces between the blanks of a line's text, as it is written.
pub(crate) fn words_text(alloc: Global, text: &[u8]) -> Result<String, Memory>
    ensures { IfOk result (λ list. string_bytes list ≡ compact_text (list_value (map text_value (words_of text.now)))) }
{
    let value = words_value(alloc, text)?;
    Ok(value.to_string(alloc)?)
}

/// The pieces as strings.
pub(crate) fn words_value(alloc: Global, text: &[u8]) -> Result<Value, Memory>
    ensures { IfOk result (λ value. view value ≡ list_value (map text_value (words_of text.now))) }
{
    let mut values = Vec::new(alloc);
    for word in words(text) {
        values.push(text_value(alloc, word)?)?;
    }
    Ok(Value::from(values))
}

/// A string. Each byte is the character of its number.
pub(crate) fn text_value(alloc: Global, bytes: &[u8]) -> Result<Value, Memory>
    ensures { IfOk result (λ value. view value ≡ text_value bytes.now) }
{
    let mut text = String::new(alloc);
    for byte in bytes {
        text.push(char::from(*byte))?;
    }
    Ok(Value::from(text))
}
