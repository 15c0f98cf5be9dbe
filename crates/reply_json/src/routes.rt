//! Routes, and that there is none.
ghost use Rattle.std.specs.Prelude.{◌≡◌, ◌++◌, ◌∷◌, [], codes, decimal, map, All, OnOk};
ghost use Rattle.replies.specs.Printable.{IsPrintableStep, IsPrintableLabel};
ghost use Rattle.replies.specs.declared.block.Block.TheVariants.{Route, NoRoute};
ghost use Rattle.serde_json.specs.Written.{compact_text};
ghost use Rattle.reply_json.specs.Values.{text_value, list_value};
ghost use Rattle.reply_json.specs.Replies.{label_object, step_object};
ghost use Rattle.reply_json.specs.Lines.{command_object};

use crate::lists::write_rows;
use crate::numbered::{Numbered, write_command, write_line, write_words};
use crate::pieces::quoted_name;
use airport_file::Airport;
use taxi_base::{LabelRow, Memory, Name, Step, Time};
use taxi_text::{push_bytes, push_number};

/// Writes the object of a route at the end.
pub(crate) fn write_route(
    airport: &Airport,
    command: &Numbered,
    flight: &Name,
    second: Time,
    steps: &[Step],
    labels: &[LabelRow],
    out: &mut Vec<u8>,
) -> Result<(), Memory>
    requires steps { All (IsPrintableStep airport.now) steps.now }
    requires labels { All (IsPrintableLabel airport.now) labels.now }
    ensures { OnOk result (out.new.items ≡ out.old.items ++ compact_text (command_object airport.now command.now.command command.now.line command.now.text.now (Route flight.now second steps.now labels.now))) }
{
    write_command(command, out)?;
    write_flight_and_labels(airport, flight, labels, out)?;
    write_line(command, out)?;
    write_second_and_steps(airport, second, steps, out)?;
    write_words(command, out)
}

/// Writes the object of that there is no route at the end.
pub(crate) fn write_no_route(
    airport: &Airport,
    command: &Numbered,
    labels: &[LabelRow],
    out: &mut Vec<u8>,
) -> Result<(), Memory>
    requires { All (IsPrintableLabel airport.now) labels.now }
    ensures { OnOk result (out.new.items ≡ out.old.items ++ compact_text (command_object airport.now command.now.command command.now.line command.now.text.now (NoRoute labels.now))) }
{
    write_command(command, out)?;
    push_bytes(out, b",\"labels\":")?;
    write_rows(airport, labels, out)?;
    write_line(command, out)?;
    push_bytes(out, b",\"reply\":\"no-route\"")?;
    write_words(command, out)
}

/// Goes on with a flight and the rows of its table.
pub(crate) fn write_flight_and_labels(
    airport: &Airport,
    flight: &Name,
    labels: &[LabelRow],
    out: &mut Vec<u8>,
) -> Result<(), Memory>
    requires labels { All (IsPrintableLabel airport.now) labels.now }
    ensures { OnOk result (out.new.items ≡ (((out.old.items ++ codes ",\"flight\":") ++ compact_text (text_value flight.now)) ++ codes ",\"labels\":") ++ compact_text (list_value (map (label_object airport.now) labels.now))) }
{
    let name = quoted_name(flight);
    push_bytes(out, b",\"flight\":")?;
    push_bytes(out, name.bytes())?;
    push_bytes(out, b",\"labels\":")?;
    write_rows(airport, labels, out)
}

/// Goes on with the second and the steps of a route.
pub(crate) fn write_second_and_steps(
    airport: &Airport,
    second: Time,
    steps: &[Step],
    out: &mut Vec<u8>,
) -> Result<(), Memory>
    requires { All (IsPrintableStep airport.now) steps.now }
    ensures { OnOk result (out.new.items ≡ (((out.old.items ++ codes ",\"reply\":\"route\",\"second\":") ++ decimal second) ++ codes ",\"steps\":") ++ compact_text (list_value (map (step_object airport.now) steps.now))) }
{
    push_bytes(out, b",\"reply\":\"route\",\"second\":")?;
    push_number(out, u64::from(second))?;
    push_bytes(out, b",\"steps\":")?;
    write_rows(airport, steps, out)
}
