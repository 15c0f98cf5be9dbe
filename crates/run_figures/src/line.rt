//! A line of the figures.
ghost use Rattle.std.specs.Prelude.{◌≡◌, ◌++◌, OnOk};
ghost use Rattle.run_figures.specs.Figures.{line};

use taxi_base::Memory;
use taxi_text::{push_bytes, push_number};

/// Writes a line: of what, a subject, and a number.
#[tactic(auto, unfolding(crate::specs::Figures::line))]
pub(crate) fn write_line(
    out: &mut Vec<u8>,
    what: &[u8],
    subject: &[u8],
    number: u64,
) -> Result<(), Memory>
    ensures { OnOk result (out.new.items ≡ out.old.items ++ line what.now subject.now number) }
{
    push_bytes(out, what)?;
    push_bytes(out, subject)?;
    push_bytes(out, b" ")?;
    push_number(out, number)?;
    push_bytes(out, b"\n")
}
