//! The names that are taken, and how many holders there may be.
ghost use Rattle.std.specs.Prelude.{◌≡◌, ◌+◌, nat_lt, nat_le};
ghost use Rattle.taxi_base.specs.State.{has_holder, holder_count};
ghost use Rattle.replies.specs.Refusals.{most_holders};
ghost use Rattle.commitments.specs.Book.{Fits};

use airport_file::Airport;
use commitments::Ledger;
use taxi_base::{MOST_HOLDERS, Name};

/// Whether a flight or a work party has the name.
pub fn is_held(ledger: &Ledger, name: &Name) -> bool
    ensures { result ≡ has_holder name.now ledger.now.state }
{
    ledger.party(name).is_some() || ledger.flight(name).is_some()
}

/// Whether no further flight or work party may be in force.
pub fn is_full(airport: &Airport, ledger: &Ledger) -> bool
    requires { Fits airport.now ledger.now }
    ensures { result ≡ nat_le most_holders (holder_count ledger.now.state) }
{
    ledger.parties() + ledger.count() >= MOST_HOLDERS
}

/// Whether so many more would be too many.
pub fn is_full_with(airport: &Airport, ledger: &Ledger, more: usize) -> bool
    requires { Fits airport.now ledger.now }
    ensures { result ≡ nat_lt most_holders (holder_count ledger.now.state + more) }
{
    let holders = ledger.parties() + ledger.count();
    holders.saturating_add(more) > MOST_HOLDERS
}
