//! Of names the one that stands before the others.
ghost use Rattle.std.specs.Prelude.{◌≡◌};
ghost use Rattle.taxi_base.specs.Faults.{first_name};

use taxi_base::Name;

/// Of two names the one that stands before the other.
pub fn first_name(one: Option<Name>, other: Option<Name>) -> Option<Name>
    ensures { result ≡ first_name one other }
{
    let Some(first) = one else {
        return other;
    };
    let Some(second) = other else {
        return one;
    };
    Some(if second < first { second } else { first })
}
