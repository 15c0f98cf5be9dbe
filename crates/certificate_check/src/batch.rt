//! Lines that hand in several requests at once.
ghost use Rattle.std.specs.Prelude.{◌≡◌, ◌+◌, ◌≤◌, ◌∷◌, [], Some, None, List as Items, length, All, AllPairs, IsFalse, IsSome, OnOk, MatchOption, bytes_eq};
ghost use Rattle.taxi_base.specs.State.{has_holder, holder_count, flights_without};
ghost use Rattle.taxi_text.specs.declared.command.BatchRequest.{BatchRequest as Requested};
ghost use Rattle.taxi_text.specs.declared.command.Command.TheVariants as command;
ghost use Rattle.replies.specs.declared.wish.Wish.{Wish as Wished};
ghost use Rattle.replies.specs.declared.block.Block.{Block as Told};
ghost use Rattle.replies.specs.Asked.{asked_in, IsAskedInGrammar};
ghost use Rattle.replies.specs.Printable.{IsTold};
ghost use Rattle.replies.specs.Refusals.{first_refusal};
ghost use Rattle.replies.specs.Batches.{wish_named, wishes_of, names_of};
ghost use Rattle.replies.specs.Sought.{sought_wish};
ghost use Rattle.replies.specs.Turns.{told_of, after_turns};
ghost use Rattle.checked_state.specs.Flights.{state_of};
ghost use Rattle.check_walks.specs.Told.{CanBeSought};
ghost use Rattle.certificate_check.specs.Desk.{IsReady};
ghost use Rattle.certificate_check.specs.Judged.{IsJudged, IsToldOf};
ghost use Rattle.certificate_check.specs.Entries.{AreChecked};
ghost use Rattle.certificate_check.specs.Batch.{CanBeChecked, turns_among, without_all};

use crate::CheckRefused;
use crate::batch_form::{tells_each, wish_named};
use crate::reply::{is_refusal, pass_if};
use crate::routed::check_new;
use airport_file::Airport;
use check_rows::KnownWindows;
use checked_state::HeldFlights;
use due_refusals::{NamedBatch, named_batch};
use replies::{Block, Entry, Wish};
use std::alloc::Global;
use taxi_base::Name;
use taxi_text::BatchRequest;

/// Checks the block of a batch. Where it passes, the flights with a route are in force afterwards.
pub fn check_batch(
    alloc: Global,
    airport: &Airport,
    held: &mut HeldFlights,
    known: &mut KnownWindows,
    requests: &[BatchRequest],
    block: Block,
) -> Result<(), CheckRefused>
    requires ready { IsReady airport.now held.old known.old }
    requires grammar { All (λ request. IsAskedInGrammar (asked_in request)) requests.now }
    requires few { length requests.now ≤ 6 }
    ensures judged { IsJudged airport.now (command.Batch requests.now) block (state_of held.old) result (state_of held.new) }
    ensures ready { IsReady airport.now held.new known.new }
{
    let named = named_batch(alloc, airport, held, requests)?;
    match &named {
        NamedBatch::Named { wishes } => check_wishes(
            airport,
            held,
            known,
            wishes.as_slice(),
            block,
        ),
        NamedBatch::Refused { why } => pass_if(is_refusal(&block, why)),
    }
}

// Checks what is told of wishes. Where it does not pass, the flights that were put in force on the way are taken out again.
fn check_wishes(
    airport: &Airport,
    held: &mut HeldFlights,
    known: &mut KnownWindows,
    wishes: &[Wish],
    block: Block,
) -> Result<(), CheckRefused>
    requires ready { IsReady airport.now held.old known.old }
    requires sought { All (λ wish. CanBeSought airport.now wish.request) wishes.now }
    requires new { All (λ name. IsFalse (has_holder name (state_of held.old))) (names_of wishes.now) }
    requires differ { AllPairs (λ a b. IsFalse (bytes_eq b a)) (names_of wishes.now) }
    requires fit { holder_count (state_of held.old) + length wishes.now ≤ 4096 }
    requires few { length wishes.now ≤ 6 }
    ensures judged { (requests : Items Requested) → first_refusal airport.now (state_of held.old) (command.Batch requests) ≡ None → wishes_of airport.now requests ≡ Some wishes.now → IsJudged airport.now (command.Batch requests) block (state_of held.old) result (state_of held.new) }
    ensures ready { IsReady airport.now held.new known.new }
{
    match block {
        Block::Batch { total, entries } => {
            pass_if(tells_each(wishes, total, entries.as_slice()))?;
            let checked = check_entries(airport, held, known, wishes, entries.into_vec());
            if checked.is_err() {
                take_all_out(airport, held, known, wishes);
            }
            checked
        }
        _ => pass_if(false),
    }
}

// Checks entries in turn, each in the state after the one before it, up to the first that does not pass.
fn check_entries(
    airport: &Airport,
    held: &mut HeldFlights,
    known: &mut KnownWindows,
    wishes: &[Wish],
    entries: Vec<(Name, Entry)>,
) -> Result<(), CheckRefused>
    requires ready { IsReady airport.now held.old known.old }
    requires sought { All (λ wish. CanBeSought airport.now wish.request) wishes.now }
    requires can { CanBeChecked wishes.now (state_of held.old) entries.items }
    ensures checked { AreChecked (turns_among airport.now (state_of held.old) wishes.now entries.items) result }
    ensures state { OnOk result (state_of held.new ≡ after_turns (state_of held.old) (turns_among airport.now (state_of held.old) wishes.now entries.items)) }
    ensures others { without_all wishes.now (state_of held.new) ≡ without_all wishes.now (state_of held.old) }
    ensures ready { IsReady airport.now held.new known.new }
{
    for (name, entry) in entries {
        check_entry(airport, held, known, wishes, name, entry)?;
    }
    Ok(())
}

// Checks one entry for the wish of its name. Where a route passes, the flight is in force on it afterwards.
fn check_entry(
    airport: &Airport,
    held: &mut HeldFlights,
    known: &mut KnownWindows,
    wishes: &[Wish],
    name: Name,
    entry: Entry,
) -> Result<(), CheckRefused>
    requires ready { IsReady airport.now held.old known.old }
    requires sought { All (λ wish. CanBeSought airport.now wish.request) wishes.now }
    requires told { IsTold (name, entry) }
    requires named { IsSome (wish_named name wishes.now) }
    requires new { IsFalse (has_holder name (state_of held.old)) }
    requires few { holder_count (state_of held.old) + 1 ≤ 4096 }
    ensures told { (wish : Wished) (block : Told) → wish_named name wishes.now ≡ Some wish → told_of (name, entry) ≡ block ∷ [] → IsToldOf (sought_wish airport.now (state_of held.old) wish) block (state_of held.old) result (state_of held.new) }
    ensures ready { IsReady airport.now held.new known.new }
{
    let wish = wish_named(wishes, &name).unwrap();
    let block = told_alone(name, entry).unwrap();
    check_new(airport, held, known, wish, block)
}

// What an entry tells, as a block of its own. It is none where the flight is dropped.
fn told_alone(name: Name, entry: Entry) -> Option<Block>
    ensures { MatchOption result (told_of (name, entry) ≡ []) (λ block. told_of (name, entry) ≡ block ∷ []) }
{
    match entry {
        Entry::Route {
            second,
            steps,
            labels,
        } => Some(Block::Route {
            flight: name,
            second,
            steps,
            labels,
        }),
        Entry::NoRoute { labels } => Some(Block::NoRoute { labels }),
        Entry::Dropped => None,
    }
}

// Takes the flights of wishes out of force, as far as they are in force. It takes no memory.
fn take_all_out(
    airport: &Airport,
    held: &mut HeldFlights,
    known: &mut KnownWindows,
    wishes: &[Wish],
)
    requires { IsReady airport.now held.old known.old }
    ensures state { state_of held.new ≡ without_all wishes.now (state_of held.old) }
    ensures ready { IsReady airport.now held.new known.new }
{
    for wish in wishes {
        take_out(airport, held, known, &wish.name);
    }
}

// Takes the flight of a name out of force, if there is one, and forgets the windows beside it.
fn take_out(airport: &Airport, held: &mut HeldFlights, known: &mut KnownWindows, name: &Name)
    requires { IsReady airport.now held.old known.old }
    ensures state { state_of held.new ≡ record (state_of held.old) { flights = flights_without name.now (state_of held.old).flights } }
    ensures ready { IsReady airport.now held.new known.new }
{
    if let Some(flight) = held.flight(name) {
        known.forget(airport, flight.steps.as_slice());
        held.take_out(airport, name);
    }
}
