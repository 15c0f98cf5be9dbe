//! Lists of rows.
ghost use Rattle.std.specs.Prelude.{◌≡◌, ◌++◌, map, All, OnOk};
ghost use Rattle.serde_json.specs.Written.{compact_text, comma_if};
ghost use Rattle.reply_json.specs.Values.{list_value};

use crate::rows::Row;
use airport_file::Airport;
use taxi_base::Memory;
use taxi_text::push_bytes;

/// Writes the list of some rows at the end.
pub(crate) fn write_rows<R: Row>(
    airport: &Airport,
    rows: &[R],
    out: &mut Vec<u8>,
) -> Result<(), Memory>
    requires { All (R.Fits airport.now) rows.now }
    ensures { OnOk result (out.new.items ≡ out.old.items ++ compact_text (list_value (map (R.object airport.now) rows.now))) }
{
    push_bytes(out, b"[")?;
    let mut later = false;
    for row in rows {
        write_comma(later, out)?;
        row.write(airport, out)?;
        later = true;
    }
    push_bytes(out, b"]")
}

// A comma, where something stands before.
fn write_comma(later: bool, out: &mut Vec<u8>) -> Result<(), Memory>
    ensures { OnOk result (out.new.items ≡ out.old.items ++ comma_if later) }
{
    if later {
        push_bytes(out, b",")?;
    }
    Ok(())
}
