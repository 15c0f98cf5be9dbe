//! What the holders of a ledger say of its windows and its room.
ghost use Rattle.std.specs.Prelude.{◌≡◌, ◌<◌, None, length};
ghost use Rattle.taxi_base.specs.declared.answers.Flight.{Flight as FlightSeen};
ghost use Rattle.taxi_base.specs.declared.answers.Party.{Party as PartySeen};
ghost use Rattle.taxi_base.specs.declared.numbers.Segment.{Segment};
ghost use Rattle.taxi_base.specs.Airport.{Airport};
ghost use Rattle.taxi_base.specs.State.{State, with_flight, with_party};
ghost use Rattle.window_store.specs.Store.{list_at, spans_at};
ghost use Rattle.commitments.specs.Book.{Book, Fits, IsPrepared, IsPreparedForParty};
ghost use Rattle.commitments.specs.Room.{HasRoomForAll, LosesNoRoom};

/// Ledgers that fit an airport with the same flights and parties, the same of them lifted, have the same windows as lists of from and
/// until. So a flight that is lifted and lowered again leaves them as they were.
pub fn windows_follow_from_holders()
    ensures windows { (airport : Airport) (a b : Book) → Fits airport a → Fits airport b → a.state ≡ b.state → a.lifted ≡ b.lifted → (segment : Segment) → segment.0 < length airport.segments → spans_at a.store segment ≡ spans_at b.store segment }
    ensures numbers { (airport : Airport) (a b : Book) → Fits airport a → Fits airport b → a.state ≡ b.state → a.lifted ≡ b.lifted → (segment : Segment) → segment.0 < length airport.segments → (list_at a.store segment).held ≡ (list_at b.store segment).held }
{}

/// A ledger has room for its own holders. While none of it is lost, those that go out can go in again in any order, with no memory: where
/// there is room for all of a state, there is room for one of them that is out, and for the others.
pub fn holders_go_in_again()
    ensures own { (airport : Airport) (book : Book) → Fits airport book → book.lifted ≡ None → HasRoomForAll airport book.state book }
    ensures kept { (airport : Airport) (state : State) (old new : Book) → HasRoomForAll airport state old → LosesNoRoom old new → HasRoomForAll airport state new }
    ensures flight { (airport : Airport) (book : Book) (flight : FlightSeen) → Fits airport book → book.lifted ≡ None → HasRoomForAll airport (with_flight flight book.state) book → IsPrepared airport flight.steps book }
    ensures party { (airport : Airport) (book : Book) (party : PartySeen) → Fits airport book → book.lifted ≡ None → HasRoomForAll airport (with_party party book.state) book → IsPreparedForParty airport party.segment book }
    ensures but_flight { (airport : Airport) (state : State) (book : Book) (flight : FlightSeen) → HasRoomForAll airport (with_flight flight state) book → HasRoomForAll airport state book }
    ensures but_party { (airport : Airport) (state : State) (book : Book) (party : PartySeen) → HasRoomForAll airport (with_party party state) book → HasRoomForAll airport state book }
{}
