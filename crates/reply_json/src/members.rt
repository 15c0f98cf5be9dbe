//! Members that are put to an object.
ghost use Rattle.std.specs.Prelude.{◌≡◌, OnOk};
ghost use Rattle.serde_json.specs.Data.{put};
ghost use Rattle.serde_json.specs.View.{view, members_view};
ghost use Rattle.reply_json.specs.Values.{text_value, word_value, number_value};

use crate::words::text_value;
use serde_json::{Map, Value, put};
use std::alloc::Global;
use taxi_base::Memory;

/// The members of an object, by their keys.
pub(crate) type Members = Map<String, Value>;

/// A value that is made already.
pub(crate) fn put_value(
    members: &mut Members,
    alloc: Global,
    key: &str,
    value: Value,
) -> Result<(), Memory>
    ensures { OnOk result (members_view members.new.entries ≡ put key.now (view value) (members_view members.old.entries)) }
{
    put(members, alloc, key, value)?;
    Ok(())
}

/// A string of any bytes.
pub(crate) fn put_text(
    members: &mut Members,
    alloc: Global,
    key: &str,
    bytes: &[u8],
) -> Result<(), Memory>
    ensures { OnOk result (members_view members.new.entries ≡ put key.now (text_value bytes.now) (members_view members.old.entries)) }
{
    let value = text_value(alloc, bytes)?;
    put_value(members, alloc, key, value)
}

/// A word of the format.
pub(crate) fn put_word(
    members: &mut Members,
    alloc: Global,
    key: &str,
    word: &str,
) -> Result<(), Memory>
    ensures { OnOk result (members_view members.new.entries ≡ put key.now (word_value word.now) (members_view members.old.entries)) }
{
    let value = Value::try_from_str(alloc, word)?;
    put_value(members, alloc, key, value)
}

/// A number.
pub(crate) fn put_number(
    members: &mut Members,
    alloc: Global,
    key: &str,
    number: u64,
) -> Result<(), Memory>
    ensures { OnOk result (members_view members.new.entries ≡ put key.now (number_value number) (members_view members.old.entries)) }
{
    put_value(members, alloc, key, Value::from(number))
}
