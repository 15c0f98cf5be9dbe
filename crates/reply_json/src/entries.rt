//! What is told of several flights, one after the other.
ghost use Rattle.std.specs.Prelude.{◌≡◌, ◌++◌, codes, OnOk, All};
ghost use Rattle.taxi_base.specs.Airport.{Airport as Plain};
ghost use Rattle.replies.specs.Printable.{IsPrintableStep, IsPrintableLabel, IsPrintableEntry};
ghost use Rattle.replies.specs.declared.entries.Entry.TheVariants.{Route, NoRoute, Dropped};
ghost use Rattle.serde_json.specs.Written.{compact_text};
ghost use Rattle.reply_json.specs.Values.{text_value};
ghost use Rattle.reply_json.specs.Replies.{entry_object};

use crate::lists::write_rows;
use crate::pieces::quoted_name;
use crate::routes::write_second_and_steps;
use crate::rows::Row;
use airport_file::Airport;
use replies::Entry;
use taxi_base::{LabelRow, Memory, Name, Step, Time};
use taxi_text::push_bytes;

impl Row for (Name, Entry) {
    ghost object = { entry_object };

    ghost Fits = { IsPrintableEntry };

    fn write(&self, airport: &Airport, out: &mut Vec<u8>) -> Result<(), Memory> {
        let (name, entry) = self;
        match entry {
            Entry::Route {
                second,
                steps,
                labels,
            } => {
                let (steps, labels) = (steps.as_slice(), labels.as_slice());
                write_route_of(airport, name, *second, steps, labels, out)
            }
            Entry::NoRoute { labels } => write_none_of(airport, name, labels.as_slice(), out),
            Entry::Dropped => write_dropped(name, out),
        }
    }
}

fn write_route_of(
    airport: &Airport,
    name: &Name,
    second: Time,
    steps: &[Step],
    labels: &[LabelRow],
    out: &mut Vec<u8>,
) -> Result<(), Memory>
    requires steps { All (IsPrintableStep airport.now) steps.now }
    requires labels { All (IsPrintableLabel airport.now) labels.now }
    ensures { OnOk result (out.new.items ≡ out.old.items ++ compact_text (entry_object airport.now (name.now, Route second steps.now labels.now))) }
{
    write_name(name, out)?;
    push_bytes(out, b",\"labels\":")?;
    write_rows(airport, labels, out)?;
    write_second_and_steps(airport, second, steps, out)?;
    push_bytes(out, b"}")
}

fn write_none_of(
    airport: &Airport,
    name: &Name,
    labels: &[LabelRow],
    out: &mut Vec<u8>,
) -> Result<(), Memory>
    requires { All (IsPrintableLabel airport.now) labels.now }
    ensures { OnOk result (out.new.items ≡ out.old.items ++ compact_text (entry_object airport.now (name.now, NoRoute labels.now))) }
{
    write_name(name, out)?;
    push_bytes(out, b",\"labels\":")?;
    write_rows(airport, labels, out)?;
    push_bytes(out, b",\"reply\":\"no-route\"}")
}

fn write_dropped(name: &Name, out: &mut Vec<u8>) -> Result<(), Memory>
    ensures { (airport : Plain) → OnOk result (out.new.items ≡ out.old.items ++ compact_text (entry_object airport (name.now, Dropped))) }
{
    write_name(name, out)?;
    push_bytes(out, b",\"reply\":\"dropped\"}")
}

// Begins the object of an entry by the name of its flight.
fn write_name(name: &Name, out: &mut Vec<u8>) -> Result<(), Memory>
    ensures { OnOk result (out.new.items ≡ (out.old.items ++ codes "{\"flight\":") ++ compact_text (text_value name.now)) }
{
    let name = quoted_name(name);
    push_bytes(out, b"{\"flight\":")?;
    push_bytes(out, name.bytes())
}
