//! When a route begins and ends, and which of its steps is under way.
ghost use Rattle.std.specs.Prelude.{◌≡◌, ◌<◌, ◌≤◌, count_by, length, nat_le, Some, None, MatchOption};
ghost use Rattle.taxi_base.specs.Walks.{begin_of, end_of};
ghost use Rattle.taxi_base.specs.State.{entered_count, step_begun, steps_done};

use crate::{Step, Time};

/// When a route begins: its first enter.
pub fn begin_of(steps: &[Step]) -> Time
    requires { 0 < length steps.now }
    ensures { result ≡ begin_of steps.now }
{
    steps[0].enter
}

/// When a route ends: its last leave.
pub fn end_of(steps: &[Step]) -> Time
    requires { 0 < length steps.now }
    ensures { result ≡ end_of steps.now }
{
    steps[steps.len() - 1].leave
}

/// The step that was entered last by a time, and the steps before it; none where no step was entered.
pub fn under_way(steps: &[Step], time: Time) -> Option<(&Step, &[Step])>
    ensures { MatchOption result (step_begun time steps.now ≡ None) (λ way. (step_begun time steps.now ≡ Some way.0.now) × (steps_done time steps.now ≡ way.1.now)) }
{
    steps[..entered_count(steps, time)].split_last()
}

// How many steps were entered by a time.
fn entered_count(steps: &[Step], time: Time) -> usize
    ensures count { result ≡ entered_count time steps.now }
    ensures within { result ≤ length steps.now }
{
    steps.iter().filter(|step| step.enter <= time).count()
}
