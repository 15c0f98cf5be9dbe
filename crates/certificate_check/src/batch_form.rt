//! Rule `reply` for a batch: each request is told of exactly once, none is dropped, and the total is the sum of the costs.
ghost use Rattle.std.specs.Prelude.{◌≡◌, ◌≤◌, ◌^◌, ◌↔◌, ◌≤ℤ◌, ◌-ℤ◌, ℕ, pos, length, All, AllPairs, IsTrue, IsFalse, bytes_eq, option_copied};
ghost use Rattle.std.specs.Bool.{OnTrue};
ghost use Rattle.std.specs.List.{list_any, list_all};
ghost use Rattle.replies.specs.Batches.{wish_named, names_of, cost_of, cost_among, total_of};
ghost use Rattle.certificate_check.specs.Batch.{TellsOfEach, TellsWishes};

use replies::{Entry, Wish, are_told};
use taxi_base::{Name, Request, Time};

/// What a request counts that has no route.
const COST_OF_NO_ROUTE: i64 = 1_000_000;

/// Whether entries tell of each wish exactly once, drop none, and the total is the sum of their costs.
pub fn tells_each(wishes: &[Wish], total: u32, entries: &[(Name, Entry)]) -> bool
    requires differ { AllPairs (λ a b. IsFalse (bytes_eq b a)) (names_of wishes.now) }
    requires few { length wishes.now ≤ 6 }
    ensures { IsTrue result ↔ TellsWishes wishes.now total entries.now }
{
    tells_of_each(wishes, entries) && total_of(wishes, entries) == i64::from(total)
}

fn tells_of_each(wishes: &[Wish], entries: &[(Name, Entry)]) -> bool
    requires { AllPairs (λ a b. IsFalse (bytes_eq b a)) (names_of wishes.now) }
    ensures each { IsTrue result ↔ TellsOfEach wishes.now entries.now }
    ensures many { OnTrue result (length entries.now ≡ length wishes.now) }
{
    entries.len() == wishes.len() && are_told(entries) && are_named(wishes, entries)
}

// Whether an entry tells of each wish.
fn are_named(wishes: &[Wish], entries: &[(Name, Entry)]) -> bool
    ensures { result ≡ list_all (λ wish. list_any (λ told. bytes_eq told.0 wish.name) entries.now) wishes.now }
{
    wishes.iter().all(|wish| is_named(&wish.name, entries))
}

/// Whether an entry is that of a name.
pub fn is_named(name: &Name, entries: &[(Name, Entry)]) -> bool
    ensures { result ≡ list_any (λ told. bytes_eq told.0 name.now) entries.now }
{
    entries.iter().any(|told| told.0 == *name)
}

/// The wish of a name.
pub fn wish_named<'a>(wishes: &'a [Wish], name: &Name) -> Option<&'a Wish>
    ensures { option_copied result ≡ wish_named name.now wishes.now }
{
    wishes.iter().find(|wish| wish.name == *name)
}

// What all entries cost, each by the wish of its name. It may be less than nothing, where a second is told that no route has.
fn total_of(wishes: &[Wish], entries: &[(Name, Entry)]) -> i64
    requires few { length entries.now ≤ 6 }
    ensures { result ≡ total_of wishes.now entries.now }
{
    let mut total = 0;
    for (name, entry) in entries {
        total += cost_among(wishes, name, entry);
    }
    total
}

fn cost_among(wishes: &[Wish], name: &Name, entry: &Entry) -> i64
    ensures cost { result ≡ cost_among wishes.now (name.now, entry.now) }
    ensures least { (pos 0 -ℤ pos (2 ^ 32)) ≤ℤ result }
    ensures most { result ≤ℤ pos (2 ^ 32) }
{
    match wish_named(wishes, name) {
        Some(wish) => cost_of(&wish.request, entry),
        None => 0,
    }
}

fn cost_of(request: &Request, entry: &Entry) -> i64
    ensures cost { result ≡ cost_of request.now entry.now }
    ensures least { (pos 0 -ℤ pos (2 ^ 32)) ≤ℤ result }
    ensures most { result ≤ℤ pos (2 ^ 32) }
{
    match entry {
        Entry::Route { second, .. } => cost_of_route(request, *second),
        Entry::NoRoute { .. } => COST_OF_NO_ROUTE,
        Entry::Dropped => 0,
    }
}

fn cost_of_route(request: &Request, second: Time) -> i64
    ensures cost { (steps : _) (labels : _) → result ≡ cost_of request.now (Entry.Route second steps labels) }
    ensures least { (pos 0 -ℤ pos (2 ^ 32)) ≤ℤ result }
    ensures most { result ≤ℤ pos (2 ^ 32) }
{
    match request {
        Request::Arrival { time, .. } => i64::from(second) - i64::from(*time),
        Request::Departure { time, .. } => i64::from(*time) - i64::from(second),
        Request::Filed => 0,
    }
}
