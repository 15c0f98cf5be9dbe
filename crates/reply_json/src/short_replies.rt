//! Replies without rows.
ghost use Rattle.std.specs.Prelude.{◌≡◌, ◌++◌, OnOk};
ghost use Rattle.replies.specs.declared.block.Block.TheVariants.{Filed, Cancelled};
ghost use Rattle.serde_json.specs.Written.{compact_text};
ghost use Rattle.reply_json.specs.Lines.{command_object};

use crate::numbered::{Numbered, write_command, write_line, write_words};
use crate::pieces::quoted_name;
use airport_file::Airport;
use taxi_base::{Memory, Name, Time};
use taxi_text::{push_bytes, push_number};

/// Writes the object of a flight or a work party that is filed at the end.
pub(crate) fn write_filed(
    airport: &Airport,
    command: &Numbered,
    flight: &Name,
    start: Time,
    end: Time,
    out: &mut Vec<u8>,
) -> Result<(), Memory>
    ensures { OnOk result (out.new.items ≡ out.old.items ++ compact_text (command_object airport.now command.now.command command.now.line command.now.text.now (Filed flight.now start end))) }
{
    let _names = airport;
    let name = quoted_name(flight);
    write_command(command, out)?;
    push_bytes(out, b",\"end\":")?;
    push_number(out, u64::from(end))?;
    push_bytes(out, b",\"flight\":")?;
    push_bytes(out, name.bytes())?;
    write_line(command, out)?;
    push_bytes(out, b",\"reply\":\"filed\",\"start\":")?;
    push_number(out, u64::from(start))?;
    write_words(command, out)
}

/// Writes the object of a flight or a work party that is cancelled at the end.
pub(crate) fn write_cancelled(
    airport: &Airport,
    command: &Numbered,
    flight: &Name,
    out: &mut Vec<u8>,
) -> Result<(), Memory>
    ensures { OnOk result (out.new.items ≡ out.old.items ++ compact_text (command_object airport.now command.now.command command.now.line command.now.text.now (Cancelled flight.now))) }
{
    let _names = airport;
    let name = quoted_name(flight);
    write_command(command, out)?;
    push_bytes(out, b",\"flight\":")?;
    push_bytes(out, name.bytes())?;
    write_line(command, out)?;
    push_bytes(out, b",\"reply\":\"cancelled\"")?;
    write_words(command, out)
}
