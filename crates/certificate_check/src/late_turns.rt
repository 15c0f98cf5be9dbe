//! The turns of a late flight and of those in its way, one after the other.
ghost use Rattle.std.specs.Prelude.{◌≡◌, All, OnOk};
ghost use Rattle.taxi_base.specs.State.{IsSound};
ghost use Rattle.replies.specs.Repairs.{IsDroppedAsDue};
ghost use Rattle.replies.specs.Turns.{after_turns};
ghost use Rattle.checked_state.specs.Flights.{state_of};
ghost use Rattle.certificate_check.specs.Desk.{CanGoOn, IsTidy};
ghost use Rattle.certificate_check.specs.Entries.{AreChecked};
ghost use Rattle.certificate_check.specs.Late.{delay_in, IsEntryChecked, AreAlone, turns_late};

use crate::CheckRefused;
use crate::block_route::BlockRoute;
use crate::late_form::LateFlight;
use crate::late_turn::{check_turn_route, check_turn_without, find_turn};
use airport_file::Airport;
use check_rows::KnownWindows;
use checked_state::HeldFlights;
use replies::Entry;
use std::alloc::Global;
use taxi_base::Name;

/// Checks entries in turn, each in the state after the one before it, up to the first that does not pass.
pub fn check_turns(
    alloc: Global,
    airport: &Airport,
    before: &HeldFlights,
    late: &LateFlight<'_>,
    held: &mut HeldFlights,
    known: &mut KnownWindows,
    entries: Vec<(Name, Entry)>,
) -> Result<(), CheckRefused>
    requires sound { IsSound airport.now (state_of before.now) }
    requires can_go_on { All (λ f. CanGoOn airport.now f.request) (state_of before.now).flights }
    requires due { All (IsDroppedAsDue (state_of before.now)) entries.items }
    requires alone { AreAlone (state_of before.now) (state_of held.old).parties }
    requires tidy { IsTidy airport.now held.old known.old }
    ensures checked { AreChecked (turns_late airport.now (state_of before.now) (delay_in late.now) (state_of held.old) entries.items) result }
    ensures state { OnOk result (state_of held.new ≡ after_turns (state_of held.old) (turns_late airport.now (state_of before.now) (delay_in late.now) (state_of held.old) entries.items)) }
    ensures tidy { OnOk result (IsTidy airport.now held.new known.new) }
{
    for (name, entry) in entries {
        check_entry(alloc, airport, before, late, held, known, (name, entry))?;
    }
    Ok(())
}

// Checks one entry. Where it passes, what it tells is in force afterwards.
fn check_entry(
    alloc: Global,
    airport: &Airport,
    before: &HeldFlights,
    late: &LateFlight<'_>,
    held: &mut HeldFlights,
    known: &mut KnownWindows,
    told: (Name, Entry),
) -> Result<(), CheckRefused>
    requires sound { IsSound airport.now (state_of before.now) }
    requires can_go_on { All (λ f. CanGoOn airport.now f.request) (state_of before.now).flights }
    requires due { IsDroppedAsDue (state_of before.now) told }
    requires alone { AreAlone (state_of before.now) (state_of held.old).parties }
    requires tidy { IsTidy airport.now held.old known.old }
    ensures checked { IsEntryChecked airport.now (state_of before.now) (delay_in late.now) told (state_of held.old) result (state_of held.new) }
    ensures parties { OnOk result ((state_of held.new).parties ≡ (state_of held.old).parties) }
    ensures tidy { OnOk result (IsTidy airport.now held.new known.new) }
{
    // The airport keeps its rules, so steps are entered early enough.
    let _ = airport.horizon();
    let (name, entry) = told;
    match entry {
        Entry::Route {
            second,
            steps,
            labels,
        } => {
            let turn = find_turn(alloc, airport, before, late, &name)?;
            let route = BlockRoute {
                second,
                steps,
                labels,
            };
            check_turn_route(airport, held, known, &turn, route)
        }
        Entry::NoRoute { labels } => {
            let turn = find_turn(alloc, airport, before, late, &name)?;
            check_turn_without(airport, held, known, turn, labels.as_slice())
        }
        Entry::Dropped => Ok(()),
    }
}
