//! The table, row by row.
ghost use Rattle.std.specs.Prelude.{◌≡◌, ◌∷◌, [], List, None, IfOk, OnOk, Contains, map};
ghost use Rattle.taxi_base.specs.Walks.{IsFeasibleStep};
ghost use Rattle.taxi_base.specs.State.{conditions_of};
ghost use Rattle.commitments.specs.Book.{Fits};
ghost use Rattle.airport_text.specs.Written.{and_records};
ghost use Rattle.plan_table.specs.declared.row.PlanRow.{PlanRow as RowOf};
ghost use Rattle.plan_table.specs.Rows.{row_fields};
ghost use Rattle.plan_table.specs.Plan.{IsStepRow, IsPartyRow, AreStepRows, AreFlightRows, ArePartyRows, IsPlan};

use crate::row::{party_row, step_row};
use crate::row_text::{write_header, write_row};
use crate::slack::{party_slack, step_slack};
use airport_file::Airport;
use airport_text::RecordWriter;
use civil_times::Start;
use commitments::Ledger;
use std::alloc::Global;
use taxi_base::{Flight, Memory, Party, Step};

/// The plan of the flights and work parties of a ledger, with its times as seconds or, where a start is given, as civil times. The only
/// error is that memory ran out.
pub fn write_plan<'a>(
    alloc: Global,
    airport: &'a Airport,
    ledger: &'a Ledger,
    start: &'a Option<Start>,
) -> Result<Vec<u8>, Memory>
    requires fits { Fits airport.now ledger.now }
    requires unlifted { ledger.now.lifted ≡ None }
    ensures { IfOk result (λ text. IsPlan airport.now ledger.now.state start.now text.items) }
{
    let plan = Plan {
        airport,
        ledger,
        start,
    };
    let mut records = RecordWriter::new(alloc);
    write_header(&mut records)?;
    plan.write_flights(&mut records)?;
    plan.write_parties(&mut records)?;
    records.finish()
}

// What a plan is made of: the holders of a ledger, over an airport, and the start of its civil times, where it has one.
#[derive(Drop)]
struct Plan<'a> {
    airport: &'a Airport,
    ledger: &'a Ledger,
    start: &'a Option<Start>,
}

impl<'a> Plan<'a> {
    // The rows of all flights.
    fn write_flights(&self, records: &mut RecordWriter) -> Result<(), Memory>
        requires fits { Fits self.now.airport.now self.now.ledger.now }
        requires unlifted { self.now.ledger.now.lifted ≡ None }
        ensures { OnOk result ((rows : List RowOf) × AreFlightRows self.now.airport.now self.now.ledger.now.state self.now.ledger.now.state.flights rows × (records.new ≡ and_records records.old (map (row_fields self.now.start.now) rows))) }
    {
        for place in 0..self.ledger.count() {
            self.write_flight(records, self.ledger.at(place))?;
        }
        Ok(())
    }

    // The rows of a flight in force.
    fn write_flight(&self, records: &mut RecordWriter, flight: &Flight) -> Result<(), Memory>
        requires fits { Fits self.now.airport.now self.now.ledger.now }
        requires unlifted { self.now.ledger.now.lifted ≡ None }
        requires in_force { Contains self.now.ledger.now.state.flights flight.now }
        ensures { OnOk result ((rows : List RowOf) × AreStepRows self.now.airport.now self.now.ledger.now.state flight.now 1 flight.now.steps rows × (records.new ≡ and_records records.old (map (row_fields self.now.start.now) rows))) }
    {
        // The airport keeps its rules, so its horizon is near, and the steps are few.
        let _horizon = self.airport.horizon();
        let mut number = 0;
        for step in flight.steps.as_slice() {
            number += 1;
            self.write_step(records, flight, number, step)?;
        }
        Ok(())
    }

    // The row of a step of a flight in force.
    fn write_step(
        &self,
        records: &mut RecordWriter,
        flight: &Flight,
        number: u32,
        step: &Step,
    ) -> Result<(), Memory>
        requires fits { Fits self.now.airport.now self.now.ledger.now }
        requires unlifted { self.now.ledger.now.lifted ≡ None }
        requires in_force { Contains self.now.ledger.now.state.flights flight.now }
        requires feasible { IsFeasibleStep (conditions_of self.now.airport.now self.now.ledger.now.state flight.now) step.now }
        ensures { OnOk result ((row : RowOf) × IsStepRow self.now.airport.now self.now.ledger.now.state flight.now number step.now row × (records.new ≡ and_records records.old (row_fields self.now.start.now row ∷ []))) }
    {
        let _horizon = self.airport.horizon();
        let slack = step_slack(self.airport, self.ledger, flight, step);
        let row = step_row(self.airport, flight, number, step, slack);
        write_row(records, self.start, &row)
    }

    // The rows of all work parties.
    fn write_parties(&self, records: &mut RecordWriter) -> Result<(), Memory>
        requires fits { Fits self.now.airport.now self.now.ledger.now }
        requires unlifted { self.now.ledger.now.lifted ≡ None }
        ensures { OnOk result ((rows : List RowOf) × ArePartyRows self.now.airport.now self.now.ledger.now.state self.now.ledger.now.state.parties rows × (records.new ≡ and_records records.old (map (row_fields self.now.start.now) rows))) }
    {
        for place in 0..self.ledger.parties() {
            self.write_party(records, &self.ledger.party_at(place))?;
        }
        Ok(())
    }

    // The row of a work party in force.
    fn write_party(&self, records: &mut RecordWriter, party: &Party) -> Result<(), Memory>
        requires fits { Fits self.now.airport.now self.now.ledger.now }
        requires unlifted { self.now.ledger.now.lifted ≡ None }
        requires in_force { Contains self.now.ledger.now.state.parties party.now }
        ensures { OnOk result ((row : RowOf) × IsPartyRow self.now.airport.now self.now.ledger.now.state party.now row × (records.new ≡ and_records records.old (row_fields self.now.start.now row ∷ []))) }
    {
        let _horizon = self.airport.horizon();
        let slack = party_slack(self.airport, self.ledger, party);
        let row = party_row(self.airport, party, slack);
        write_row(records, self.start, &row)
    }
}
