//! Until when a class may stay in its windows.
ghost use Rattle.std.specs.Prelude.{◌≡◌, ℕ, Bool};
ghost use Rattle.taxi_base.specs.declared.numbers.Segment.{Segment};
ghost use Rattle.table_rows.specs.Limits.{limits_of};
ghost use Rattle.check_rows.specs.Comes.{conditions_at};

use airport_file::Airport;
use table_rows::Limits;
use taxi_base::Class;

/// What limits the stay of a class at an airport.
#[inline(always)]
pub fn limits_of(airport: &Airport, class: Class) -> Limits
    ensures { (free : Segment → ℕ → Bool) → result ≡ limits_of (conditions_at airport.now class free) }
{
    Limits {
        horizon: airport.horizon(),
        clearance: airport.clearance(class),
    }
}
