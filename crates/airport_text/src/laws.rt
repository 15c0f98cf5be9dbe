//! What the canonical text of an airport says when it is read.
ghost use Rattle.std.specs.Prelude.{◌≡◌, Ok};
ghost use Rattle.taxi_base.specs.Airport.{Airport, IsWellFormed};
ghost use Rattle.airport_file.specs.Reading.{airport_of};
ghost use Rattle.airport_text.specs.Canonical.{canonical_text};

/// The canonical text of an airport that keeps the rules is read as that airport.
pub fn canonical_texts_are_read_again()
    ensures { (airport : Airport) → IsWellFormed airport → airport_of (canonical_text airport) ≡ Ok airport }
{}
