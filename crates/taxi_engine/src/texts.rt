//! The texts of replies to what is given by hand.
ghost use Rattle.std.specs.Prelude.{◌≡◌, ◌≤◌, length};
ghost use Rattle.taxi_base.specs.Airport.{Airport as Plain};
ghost use Rattle.taxi_base.specs.Walks.{begin_of, end_of};
ghost use Rattle.replies.specs.declared.block.Block.TheVariants.{Filed};
ghost use Rattle.replies.specs.Texts.{block_text};

use taxi_base::{Flight, Party, begin_of, end_of};
use taxi_text::ShortText;

/// The reply where a route is filed.
pub(crate) fn filed_text(flight: &Flight) -> ShortText
    requires { 1 ≤ length flight.now.steps }
    ensures { (airport : Plain) → result ≡ block_text airport (Filed flight.now.name (begin_of flight.now.steps) (end_of flight.now.steps)) }
{
    let steps = flight.steps.as_slice();
    block_writer::filed_text(&flight.name, begin_of(steps), end_of(steps))
}

/// The reply where a segment is shut.
pub(crate) fn shut_text(party: &Party) -> ShortText
    ensures { (airport : Plain) → result ≡ block_text airport (Filed party.now.name party.now.from party.now.until) }
{
    block_writer::filed_text(&party.name, party.from, party.until)
}
