//! What explains the reply to a line.
ghost use Rattle.std.specs.Prelude.{◌≡◌, ◌<◌, ◌++◌, [], List as Items, Option, length, None, IfOk, IfSome, OnOk};
ghost use Rattle.std.specs.Option.{option_map_or};
ghost use Rattle.taxi_base.specs.declared.rows.Step.{Step as StepRow};
ghost use Rattle.taxi_base.specs.State.{no_holder, IsSound};
ghost use Rattle.replies.specs.Asked.{IsInGrammar};
ghost use Rattle.commitments.specs.Book.{Fits};
ghost use Rattle.reply_reasons.specs.Asking.{IsTimely, freed, asking_freed};
ghost use Rattle.reply_reasons.specs.Routes.{IsFoundAmong, IsBestSecond};
ghost use Rattle.reply_reasons.specs.Waits.{route_reasons};
ghost use Rattle.reply_reasons.specs.Explained.{freed_reasons, span_reason, IsRouteExplained, IsCommandExplained, IsExplained};

use crate::asking::{Asking, asked_by};
use crate::reason::Reason;
use crate::searching::Search;
use crate::seconds::{Seconds, is_better, second_found};
use crate::taken::{explain_refusal, nothing_to_explain};
use crate::waits::RouteAmong;
use airport_file::Airport;
use commitments::Ledger;
use place_cells::SearchRoom;
use sequence_exchange::second_of;
use std::alloc::Global;
use taxi_base::{List, Memory, Request, Step, Time, begin_of, end_of};
use taxi_text::{Command, CommandRefused, read_command};

/// What explains the reply to a line that is given to the holders in force. The ledger is used up: which holders it has afterwards is not
/// said. The only error is that memory ran out.
pub fn explain(
    alloc: Global,
    airport: &Airport,
    ledger: &mut Ledger,
    line: &[u8],
) -> Result<List<Reason>, Memory>
    requires fits { Fits airport.now ledger.old }
    requires unlifted { ledger.old.lifted ≡ None }
    requires sound { IsSound airport.now ledger.old.state }
    ensures { IfOk result (λ reasons. IsExplained airport.now ledger.old.state line.now reasons) }
{
    match read_command(alloc, line) {
        Ok(command) => explain_command(alloc, airport, ledger, &command),
        Err(CommandRefused::BadLine) => nothing_to_explain(alloc),
        Err(CommandRefused::Memory) => Err(Memory::told()),
    }
}

fn explain_command(
    alloc: Global,
    airport: &Airport,
    ledger: &mut Ledger,
    command: &Command,
) -> Result<List<Reason>, Memory>
    requires fits { Fits airport.now ledger.old }
    requires unlifted { ledger.old.lifted ≡ None }
    requires sound { IsSound airport.now ledger.old.state }
    requires grammar { IsInGrammar command.now }
    ensures { IfOk result (λ reasons. IsCommandExplained airport.now ledger.old.state command.now reasons) }
{
    match asked_by(alloc, airport, ledger, command)? {
        Some(asking) => explain_route(alloc, airport, ledger, &asking),
        None => explain_refusal(alloc, airport, ledger, command),
    }
}

// What explains the reply to what a line asks for a flight, among the other holders.
fn explain_route<'a>(
    alloc: Global,
    airport: &'a Airport,
    others: &mut Ledger,
    asking: &'a Asking,
) -> Result<List<Reason>, Memory>
    requires fits { Fits airport.now others.old }
    requires unlifted { others.old.lifted ≡ None }
    requires timely { IsTimely airport.now asking.now.request asking.now.way }
    ensures { IfOk result (λ reasons. IsRouteExplained airport.now asking.now others.old.state reasons) }
{
    let search = Search {
        alloc,
        airport,
        asking,
    };
    let mut room = SearchRoom::new(alloc)?;
    search.explain(&mut room, others)
}

impl<'a> Search<'a> {
    // What explains the route that is found among the other holders.
    fn explain(&self, room: &mut SearchRoom, others: &mut Ledger) -> Result<List<Reason>, Memory>
        requires fits { Fits self.now.airport.now others.old }
        requires unlifted { others.old.lifted ≡ None }
        requires timely { IsTimely self.now.airport.now self.now.asking.now.request self.now.asking.now.way }
        ensures { IfOk result (λ reasons. IsRouteExplained self.now.airport.now self.now.asking.now others.old.state reasons) }
    {
        let route = self.find(room, others, self.asking.request)?;
        self.explain_found(room, others, &route)
    }

    // What explains a route that was found.
    fn explain_found(
        &self,
        room: &mut SearchRoom,
        others: &mut Ledger,
        route: &Option<List<Step>>,
    ) -> Result<List<Reason>, Memory>
        requires fits { Fits self.now.airport.now others.old }
        requires unlifted { others.old.lifted ≡ None }
        requires timely { IsTimely self.now.airport.now self.now.asking.now.request self.now.asking.now.way }
        requires found { IsFoundAmong self.now.airport.now self.now.asking.now others.old.state route.now }
        requires some { IfSome route.now (λ steps. 0 < length steps) }
        ensures { IfOk result (λ reasons. IsRouteExplained self.now.airport.now self.now.asking.now others.old.state reasons) }
    {
        let mut reasons = List::new(self.alloc);
        self.push_explained(&mut reasons, room, others, route)?;
        Ok(reasons)
    }

    // Adds to no reasons all that explain a route that was found.
    fn push_explained(
        &self,
        reasons: &mut List<Reason>,
        room: &mut SearchRoom,
        others: &mut Ledger,
        route: &Option<List<Step>>,
    ) -> Result<(), Memory>
        requires fits { Fits self.now.airport.now others.old }
        requires unlifted { others.old.lifted ≡ None }
        requires timely { IsTimely self.now.airport.now self.now.asking.now.request self.now.asking.now.way }
        requires found { IsFoundAmong self.now.airport.now self.now.asking.now others.old.state route.now }
        requires some { IfSome route.now (λ steps. 0 < length steps) }
        requires empty { reasons.old ≡ [] }
        ensures { OnOk result (IsRouteExplained self.now.airport.now self.now.asking.now others.old.state reasons.new) }
    {
        let answer = second_found(&self.asking.request, route);
        reasons.push(Reason::Answer { second: answer })?;
        let alone = self.second_alone(room)?;
        reasons.push(Reason::Alone { second: alone })?;
        let seconds = Seconds { answer, alone };
        self.push_left_out(reasons, room, others, seconds)?;
        self.push_freed(reasons, room, others, answer)?;
        push_waits_of(reasons, self.airport, others, self.asking, route)?;
        Ok(())
    }

    // The best second with no other holder.
    fn second_alone(&self, room: &mut SearchRoom) -> Result<Option<Time>, Memory>
        requires { IsTimely self.now.airport.now self.now.asking.now.request self.now.asking.now.way }
        ensures { IfOk result (IsBestSecond self.now.airport.now self.now.asking.now no_holder) }
    {
        let nobody = Ledger::new(self.alloc, self.airport)?;
        self.best_second(room, &nobody)
    }

    // Adds when the route begins and ends that is found with no limit on when to begin, or on how early to end, where it is better.
    fn push_freed(
        &self,
        reasons: &mut List<Reason>,
        room: &mut SearchRoom,
        others: &Ledger,
        answer: Option<Time>,
    ) -> Result<(), Memory>
        requires fits { Fits self.now.airport.now others.now }
        requires unlifted { others.now.lifted ≡ None }
        requires timely { IsTimely self.now.airport.now self.now.asking.now.request self.now.asking.now.way }
        ensures { OnOk result ((free : Option (Items StepRow)) × IsFoundAmong self.now.airport.now (asking_freed self.now.airport.now self.now.asking.now) others.now.state free × (reasons.new ≡ reasons.old ++ freed_reasons self.now.asking.now.request answer free)) }
    {
        let asked = self.asking.request;
        let request = freed(self.airport.horizon(), asked);
        let route = self.find(room, others, request)?;
        push_span(reasons, asked, &route, answer)
    }
}

// The same request with no limit.
fn freed(horizon: Time, request: Request) -> Request
    ensures { result ≡ freed horizon request }
{
    match request {
        Request::Filed => Request::Filed,
        Request::Arrival { from, to, time, .. } => Request::Arrival {
            from,
            to,
            time,
            hold: horizon,
        },
        Request::Departure { from, to, time, .. } => Request::Departure {
            from,
            to,
            time,
            queue: time,
        },
    }
}

// Adds when a route begins and ends, where it is better than the answer.
fn push_span(
    reasons: &mut List<Reason>,
    request: Request,
    route: &Option<List<Step>>,
    answer: Option<Time>,
) -> Result<(), Memory>
    requires { IfSome route.now (λ steps. 0 < length steps) }
    ensures { OnOk result (reasons.new ≡ reasons.old ++ freed_reasons request answer route.now) }
{
    let Some(steps) = route else {
        return Ok(());
    };
    let steps = steps.as_slice();
    if is_better(&request, second_of(&request, steps), answer) {
        reasons.push(span_reason(request, steps))?;
    }
    Ok(())
}

fn span_reason(request: Request, steps: &[Step]) -> Reason
    requires { 0 < length steps.now }
    ensures { result ≡ span_reason request steps.now }
{
    let (begin, end) = (begin_of(steps), end_of(steps));
    match request {
        Request::Departure { .. } => Reason::Sooner { begin, end },
        _ => Reason::Later { begin, end },
    }
}

// Adds where the route waits, where there is one.
fn push_waits_of<'a>(
    reasons: &mut List<Reason>,
    airport: &'a Airport,
    others: &'a Ledger,
    asking: &Asking,
    route: &'a Option<List<Step>>,
) -> Result<(), Memory>
    requires fits { Fits airport.now others.now }
    requires unlifted { others.now.lifted ≡ None }
    ensures { OnOk result (reasons.new ≡ reasons.old ++ option_map_or (route_reasons airport.now asking.now.class others.now.state asking.now.request) route.now []) }
{
    let Some(steps) = route else {
        return Ok(());
    };
    let among = RouteAmong {
        airport,
        others,
        class: asking.class,
        request: asking.request,
        steps: steps.as_slice(),
    };
    among.push_waits(reasons)
}
