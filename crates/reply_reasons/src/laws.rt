//! What is so of each explanation. The functions do nothing: their clauses are the laws.
ghost use Rattle.std.specs.Prelude.{◌≡◌, ◌↔◌, ◌<◌, ℕ, [], List, Option, Some, slice_get, All, IfSome, IsFalse};
ghost use Rattle.taxi_base.specs.declared.numbers.Node.{Node};
ghost use Rattle.taxi_base.specs.declared.answers.Request.TheVariants as request;
ghost use Rattle.taxi_base.specs.Walks.{AtLast};
ghost use Rattle.taxi_base.specs.Airport.{Airport as AirportSeen, IsWellFormed};
ghost use Rattle.taxi_base.specs.State.{State, without};
ghost use Rattle.taxi_text.specs.declared.command.Command.{Command};
ghost use Rattle.replies.specs.declared.block.Block.{Block};
ghost use Rattle.replies.specs.CarriedOut.{IsCarriedOut};
ghost use Rattle.replies.specs.Replies.{IsDue};
ghost use Rattle.reply_reasons.specs.declared.asking.Asking.{Asking as AskingSeen};
ghost use Rattle.reply_reasons.specs.declared.reason.Reason.{Reason as ReasonSeen};
ghost use Rattle.reply_reasons.specs.declared.reason.Reason.TheVariants as reason;
ghost use Rattle.reply_reasons.specs.Asking.{asking_due};
ghost use Rattle.reply_reasons.specs.Routes.{second_found, is_gain};
ghost use Rattle.reply_reasons.specs.Waits.{held_until};
ghost use Rattle.reply_reasons.specs.Told.{second_told};
ghost use Rattle.reply_reasons.specs.Named.{NamesWaitedFor, NamesHolder, IsForNew};
ghost use Rattle.reply_reasons.specs.Explained.{IsGainWithin, IsRouteExplained, IsExplained};

/// What is told of a holder that is left out is better than the answer, and no better than what is found with no holder at all. So nothing
/// is told of any where that is no better than the answer.
pub fn no_holder_is_worth_more_than_all()
    ensures between { (airport : AirportSeen) (asking : AskingSeen) (others : State) (reasons : List ReasonSeen) (told : IsRouteExplained airport asking others reasons) →
        All (IsGainWithin asking.request (second_found asking.request told.answer) told.alone) told.others_left_out }
    ensures none { (airport : AirportSeen) (asking : AskingSeen) (others : State) (reasons : List ReasonSeen) (told : IsRouteExplained airport asking others reasons) →
        IsFalse (is_gain asking.request told.alone (second_found asking.request told.answer)) → told.others_left_out ≡ [] }
{}

/// The answer that is explained is the reply itself: its second is the one that the reply tells with its route, and it is none where the reply
/// tells that there is no route. The first line of an explanation tells it just where the reply is one of these.
pub fn answers_are_those_of_replies()
    ensures carried_out { (airport : AirportSeen) (state : State) (command : Command) (asking : AskingSeen) (block : Block) (after : State) (reasons : List ReasonSeen) → asking_due airport state command ≡ Some asking → IsCarriedOut airport state command block after →
        (told : IsRouteExplained airport asking (without asking.name state) reasons) → second_told block ≡ Some (second_found asking.request told.answer) }
    ensures line { (airport : AirportSeen) (state : State) (line : List ℕ) (block : Block) (after : State) (reasons : List ReasonSeen) (second : Option ℕ) → IsDue airport state line block after → IsExplained airport state line reasons →
        (second_told block ≡ Some second) ↔ (slice_get reasons 0 ≡ Some (reason.Answer second)) }
{}

/// Each hold and each wait of a new arrival names a holder who is in force. So does each wait of a departure, and each queue whose last hold
/// ends before the horizon. An arrival under way may wait for nobody, since it leaves its step no sooner than it is asked again.
pub fn waits_name_holders()
    ensures arrivals { (airport : AirportSeen) (asking : AskingSeen) (others : State) (reasons : List ReasonSeen) (from to : Node) (time hold : ℕ) → asking.request ≡ request.Arrival from to time hold → IsForNew asking.way → IsRouteExplained airport asking others reasons →
        All (NamesHolder others) reasons }
    ensures departures { (airport : AirportSeen) (asking : AskingSeen) (others : State) (reasons : List ReasonSeen) (from to : Node) (time queue : ℕ) → asking.request ≡ request.Departure from to time queue → IsRouteExplained airport asking others reasons →
        All (NamesWaitedFor others) reasons }
    ensures queues { (airport : AirportSeen) (asking : AskingSeen) (others : State) (reasons : List ReasonSeen) (from to : Node) (time queue : ℕ) → asking.request ≡ request.Departure from to time queue → (told : IsRouteExplained airport asking others reasons) →
        IfSome told.answer (AtLast (λ last. held_until airport asking.class last < airport.horizon)) → All (NamesHolder others) reasons }
{}

/// A line that is given in a state has one explanation. So its text depends on the airport, the holders in force and the line alone.
pub fn explanations_are_one()
    ensures { (airport : AirportSeen) (state : State) (line : List ℕ) (reasons others : List ReasonSeen) → IsWellFormed airport → IsExplained airport state line reasons → IsExplained airport state line others → reasons ≡ others }
{}
