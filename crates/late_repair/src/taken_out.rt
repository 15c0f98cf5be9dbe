//! Holders that are taken out of force, and put back as they were.
ghost use Rattle.std.specs.Prelude.{◌≡◌, ◌<◌, map, All, AllPairs, IfOk, OnErr, IsTrue, IsFalse, None, bytes_eq};
ghost use Rattle.taxi_base.specs.State.{has_holder, holder_count, without, IsFeasibleState};
ghost use Rattle.commitments.specs.Book.{Fits};
ghost use Rattle.commitments.specs.Room.{HasRoomForAll, LosesNoRoom};
ghost use Rattle.late_repair.specs.TakenOut.{name_of, with_holder, with_holders, without_all, taken_back, AreOthers, AreOut, IsFeasibleAmong};

use crate::holder::Holder;
use airport_file::Airport;
use commitments::Ledger;
use std::alloc::Global;
use std::marker::Model;
use taxi_base::{Memory, Name};

/// Holders that were taken out of a ledger one after the other, each of another name. `take_back` puts them back.
#[derive(Drop)]
pub struct TakenOut {
    holders: Vec<Holder>,
}

impl Model for TakenOut {
    ghost use Rattle.std.specs.Prelude.{List};
    ghost use Rattle.late_repair.specs.declared.holder.Holder.{Holder as One};
    ghost use Rattle.late_repair.specs.TakenOut.{AreOthers};

    ghost Value = { List One };

    ghost view = { λ t. t.holders.items };

    ghost invariant = { λ t. AreOthers t.holders.items };
}

impl TakenOut {
    /// Those that were taken out, in order.
    pub(crate) fn holders(&self) -> &[Holder]
        ensures holders { result.now ≡ self.now }
        ensures others { AreOthers self.now }
    {
        self.holders.as_slice()
    }

    // The holders alone.
    fn into_holders(self) -> Vec<Holder>
        ensures holders { result.items ≡ self }
        ensures others { AreOthers self }
    {
        let TakenOut { holders } = self;
        holders
    }
}

/// Takes the holders of some names out of force, and hands them out. After an error all are in force as before.
pub(crate) fn take_out(
    alloc: Global,
    airport: &Airport,
    ledger: &mut Ledger,
    names: &[Name],
) -> Result<TakenOut, Memory>
    requires fits { Fits airport.now ledger.old }
    requires unlifted { ledger.old.lifted ≡ None }
    requires in_force { All (λ name. IsTrue (has_holder name ledger.old.state)) names.now }
    requires once { AllPairs (λ a b. IsFalse (bytes_eq b a)) names.now }
    ensures names { IfOk result (λ before. map name_of before ≡ names.now) }
    ensures out { IfOk result (AreOut ledger.new.state) }
    ensures back { IfOk result (λ before. taken_back before ledger.new.state ≡ ledger.old.state) }
    ensures err { OnErr result (ledger.new.state ≡ ledger.old.state) }
    ensures room { LosesNoRoom ledger.old ledger.new }
    ensures unlifted { ledger.new.lifted ≡ None }
    ensures fits { Fits airport.now ledger.new }
{
    let mut holders = Vec::with_capacity(alloc, names.len())?;
    for name in names {
        holders.push_reserved(take_one_out(airport, ledger, name));
    }
    Ok(TakenOut { holders })
}

// Takes the holder of a name out of force.
fn take_one_out(airport: &Airport, ledger: &mut Ledger, name: &Name) -> Holder
    requires fits { Fits airport.now ledger.old }
    requires unlifted { ledger.old.lifted ≡ None }
    requires in_force { IsTrue (has_holder name.now ledger.old.state) }
    ensures name { name_of result ≡ name.now }
    ensures back { with_holder result ledger.new.state ≡ ledger.old.state }
    ensures state { ledger.new.state ≡ without name.now ledger.old.state }
    ensures room { LosesNoRoom ledger.old ledger.new }
    ensures unlifted { ledger.new.lifted ≡ None }
    ensures fits { Fits airport.now ledger.new }
{
    match ledger.cancel(airport, name) {
        Some(flight) => Holder::Flight(flight),
        None => Holder::Party(ledger.remove(airport, name).unwrap()),
    }
}

/// Puts holders that were taken out in force again as they were, in place of whoever has their names now. It needs no memory.
pub fn take_back(airport: &Airport, ledger: &mut Ledger, before: TakenOut)
    requires fits { Fits airport.now ledger.old }
    requires unlifted { ledger.old.lifted ≡ None }
    requires feasible { IsFeasibleState airport.now (taken_back before ledger.old.state) }
    requires room { HasRoomForAll airport.now (taken_back before ledger.old.state) ledger.old }
    ensures state { ledger.new.state ≡ taken_back before ledger.old.state }
    ensures unlifted { ledger.new.lifted ≡ None }
    ensures fits { Fits airport.now ledger.new }
{
    let holders = before.into_holders();
    make_way(airport, ledger, holders.as_slice());
    put_back(airport, ledger, holders);
}

// Takes whoever has one of the names of some holders out of force.
fn make_way(airport: &Airport, ledger: &mut Ledger, holders: &[Holder])
    requires fits { Fits airport.now ledger.old }
    requires unlifted { ledger.old.lifted ≡ None }
    ensures state { ledger.new.state ≡ without_all (map name_of holders.now) ledger.old.state }
    ensures room { LosesNoRoom ledger.old ledger.new }
    ensures unlifted { ledger.new.lifted ≡ None }
    ensures fits { Fits airport.now ledger.new }
{
    for holder in holders {
        take_whoever_out(airport, ledger, holder.name());
    }
}

// Takes the holder of a name out of force, if there is one.
fn take_whoever_out(airport: &Airport, ledger: &mut Ledger, name: &Name)
    requires fits { Fits airport.now ledger.old }
    requires unlifted { ledger.old.lifted ≡ None }
    ensures state { ledger.new.state ≡ without name.now ledger.old.state }
    ensures room { LosesNoRoom ledger.old ledger.new }
    ensures unlifted { ledger.new.lifted ≡ None }
    ensures fits { Fits airport.now ledger.new }
{
    if ledger.cancel(airport, name).is_none() {
        let _ = ledger.remove(airport, name);
    }
}

// Puts holders in force that are out, the last of them first.
fn put_back(airport: &Airport, ledger: &mut Ledger, holders: Vec<Holder>)
    requires fits { Fits airport.now ledger.old }
    requires unlifted { ledger.old.lifted ≡ None }
    requires out { AreOut ledger.old.state holders.items }
    requires others { AreOthers holders.items }
    requires feasible { IsFeasibleState airport.now (with_holders holders.items ledger.old.state) }
    requires room { HasRoomForAll airport.now (with_holders holders.items ledger.old.state) ledger.old }
    ensures state { ledger.new.state ≡ with_holders holders.items ledger.old.state }
    ensures unlifted { ledger.new.lifted ≡ None }
    ensures fits { Fits airport.now ledger.new }
{
    let mut left = holders;
    while let Some(holder) = left.pop() {
        put_one_back(airport, ledger, holder);
    }
}

// Puts a holder in force that is out.
fn put_one_back(airport: &Airport, ledger: &mut Ledger, holder: Holder)
    requires fits { Fits airport.now ledger.old }
    requires unlifted { ledger.old.lifted ≡ None }
    requires out { IsFalse (has_holder (name_of holder) ledger.old.state) }
    requires few { holder_count ledger.old.state < 4096 }
    requires feasible { IsFeasibleAmong airport.now ledger.old.state holder }
    requires room { HasRoomForAll airport.now (with_holder holder ledger.old.state) ledger.old }
    ensures state { ledger.new.state ≡ with_holder holder ledger.old.state }
    ensures room { LosesNoRoom ledger.old ledger.new }
    ensures unlifted { ledger.new.lifted ≡ None }
    ensures fits { Fits airport.now ledger.new }
{
    match holder {
        Holder::Flight(flight) => ledger.commit(airport, flight),
        Holder::Party(party) => ledger.place(airport, party),
    }
}
