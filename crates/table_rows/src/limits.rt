//! Until when a class may stay in its windows.
ghost use Rattle.std.specs.Prelude.{◌≡◌};
ghost use Rattle.table_rows.specs.Limits.{last_by};

use taxi_base::{Span, Time};

/// The horizon, where a stay may last as long as the window, and the clearance, which is to be over by the end of any other.
#[derive(Clone, Copy)]
pub struct Limits {
    pub horizon: Time,
    pub clearance: Time,
}

/// The last second at which a step inside a window may leave.
#[inline(always)]
pub fn last_in(limits: Limits, window: Span) -> Time
    ensures { result ≡ last_by limits window }
{
    if window.until == limits.horizon {
        limits.horizon
    } else {
        window.until.saturating_sub(limits.clearance)
    }
}
