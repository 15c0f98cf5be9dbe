//! Seconds are taken out of a chain of windows and given back, in nodes that are there.
ghost use Rattle.std.specs.Prelude.{◌≡◌, ◌+◌, ◌-◌, ◌^◌, ◌<◌, ◌≤◌, ◌++◌, length, take, drop};
ghost use Rattle.taxi_base.specs.Windows.{AreApart};
ghost use Rattle.interval_list.specs.Cells.{IsAt, IsGap, SameNodes, place_of, node_of, windows_of};
ghost use Rattle.interval_list.specs.Edits.{inserted};
ghost use Rattle.interval_list.specs.Intervals.{span, spans_of, ids_of};
ghost use Rattle.interval_list.specs.Steps.{window, top, below_top, cut_window, cut_spare, cut, merged, HasRoomToCut, HasRoomToMerge};

use crate::Window;
use crate::chain::Chain;
use crate::node::Place;
use taxi_base::Time;

/// Takes the seconds from `from` up to `until` out of the windows.
pub(crate) fn take_out(windows: &mut Chain, spares: &mut Chain, from: Time, until: Time)
    requires some { from < until }
    requires apart { AreApart 0 (spans_of (windows_of windows.old)) }
    requires room { HasRoomToCut (span from until) (windows_of windows.old) (ids_of (windows_of spares.old)) }
    requires small { length windows.old + length spares.old < 2 ^ 64 }
    ensures windows { windows_of windows.new ≡ (cut (span from until) (windows_of windows.old) (ids_of (windows_of spares.old))).0 }
    ensures spares { ids_of (windows_of spares.new) ≡ (cut (span from until) (windows_of windows.old) (ids_of (windows_of spares.old))).1 }
    ensures nodes { SameNodes windows.old spares.old windows.new spares.new }
{
    let start = first_beyond(windows, from);
    let mut place = start.place;
    let mut i = start.index;
    while i < windows.len() {
        let window = windows.window(place, i);
        if until <= window.from {
            return;
        }
        let next = windows.next(place, i);
        i += cut_at(windows, spares, place, i, from, until);
        place = next;
    }
}

/// A node's number, and the places of the one before and of its own, where there are such nodes.
#[derive(Clone, Copy)]
struct Start {
    index: usize,
    prev: Place,
    place: Place,
}

/// The first window that reaches beyond a second. It is looked for from the end, near which most seconds are taken out, since
/// traffic comes in order of time.
fn first_beyond(windows: &Chain, second: Time) -> Start
    ensures inside { result.index ≤ length windows.now }
    ensures place { result.index < length windows.now → result.place.at ≡ place_of windows.now result.index }
    ensures prev { 0 < result.index → result.prev.at ≡ place_of windows.now (result.index - 1) }
    ensures over { 0 < result.index → (node_of windows.now (result.index - 1)).window.until ≤ second }
{
    let mut place = windows.last();
    let mut beyond = place;
    let mut left = windows.len();
    while left > 0 {
        if windows.window(place, left - 1).until <= second {
            return Start {
                index: left,
                prev: place,
                place: beyond,
            };
        }
        beyond = place;
        place = windows.prev(place, left - 1);
        left -= 1;
    }
    Start {
        index: 0,
        prev: place,
        place: beyond,
    }
}

/// The same, looked for from the end that is nearer in time, since what is given back was mostly held long ago or just now.
fn first_beyond_from_nearer(windows: &Chain, second: Time) -> Start
    ensures inside { result.index ≤ length windows.now }
    ensures place { result.index < length windows.now → result.place.at ≡ place_of windows.now result.index }
    ensures prev { 0 < result.index → result.prev.at ≡ place_of windows.now (result.index - 1) }
    ensures over { 0 < result.index → (node_of windows.now (result.index - 1)).window.until ≤ second }
{
    if is_nearer_first(windows, second) {
        first_beyond_from_first(windows, second)
    } else {
        first_beyond(windows, second)
    }
}

/// Whether a second is nearer to the first window than to the last.
fn is_nearer_first(windows: &Chain, second: Time) -> bool {
    if windows.len() < 2 {
        return false;
    }
    let last = windows.window(windows.last(), windows.len() - 1);
    second.saturating_sub(windows.top().until) < last.from.saturating_sub(second)
}

fn first_beyond_from_first(windows: &Chain, second: Time) -> Start
    ensures inside { result.index ≤ length windows.now }
    ensures place { result.index < length windows.now → result.place.at ≡ place_of windows.now result.index }
    ensures prev { 0 < result.index → result.prev.at ≡ place_of windows.now (result.index - 1) }
    ensures over { 0 < result.index → (node_of windows.now (result.index - 1)).window.until ≤ second }
{
    let mut place = windows.first();
    let mut prev = place;
    let mut index = 0;
    while index < windows.len() {
        if second < windows.window(place, index).until {
            return Start { index, prev, place };
        }
        prev = place;
        place = windows.next(prev, index);
        index += 1;
    }
    Start { index, prev, place }
}

/// A gap between two nodes, and the window that is to stand there but for its id.
#[derive(Clone, Copy)]
struct Gap {
    index: usize,
    prev: Place,
    next: Place,
    from: Time,
    until: Time,
}

/// Gives the seconds from `from` up to `until` back to the windows.
pub(crate) fn give_back(windows: &mut Chain, spares: &mut Chain, from: Time, until: Time)
    requires some { from < until }
    requires apart { AreApart 0 (spans_of (windows_of windows.old)) }
    requires room { HasRoomToMerge (span from until) (windows_of windows.old) (ids_of (windows_of spares.old)) }
    requires small { length windows.old + length spares.old < 2 ^ 64 }
    ensures windows { windows_of windows.new ≡ (merged (span from until) (windows_of windows.old) (ids_of (windows_of spares.old))).0 }
    ensures spares { ids_of (windows_of spares.new) ≡ (merged (span from until) (windows_of windows.old) (ids_of (windows_of spares.old))).1 }
    ensures nodes { SameNodes windows.old spares.old windows.new spares.new }
{
    let gap = clear(windows, spares, from, until);
    let window = Window {
        from: gap.from,
        until: gap.until,
        id: spares.top().id,
    };
    let spare = spares.pop();
    windows.put(gap.index, gap.prev, gap.next, spare, window);
}

/// Takes out each window that the seconds meet or touch, and finds the gap for the one that has them all. A window that ends
/// where the seconds begin reaches beyond the second before them.
fn clear(windows: &mut Chain, spares: &mut Chain, from: Time, until: Time) -> Gap
    requires some { from < until }
    requires apart { AreApart 0 (spans_of (windows_of windows.old)) }
    requires room { HasRoomToMerge (span from until) (windows_of windows.old) (ids_of (windows_of spares.old)) }
    requires small { length windows.old + length spares.old < 2 ^ 64 }
    ensures gap { IsGap windows.new result.index result.prev.at result.next.at }
    ensures windows { (merged (span from until) (windows_of windows.old) (ids_of (windows_of spares.old))).0 ≡ inserted (windows_of windows.new) result.index (window result.from result.until (top (ids_of (windows_of spares.new)))) }
    ensures spares { (merged (span from until) (windows_of windows.old) (ids_of (windows_of spares.old))).1 ≡ below_top (ids_of (windows_of spares.new)) }
    ensures some { 0 < length spares.new }
    ensures same { length windows.new + length spares.new ≡ length windows.old + length spares.old }
    ensures nodes { SameNodes windows.old spares.old windows.new spares.new }
{
    let mut from = from;
    let mut until = until;
    let start = first_beyond_from_nearer(windows, from.saturating_sub(1));
    let mut index = start.index;
    let mut next = start.place;
    let mut prev = start.prev;
    while index < windows.len() {
        let window = windows.window(next, index);
        if until < window.from {
            return Gap {
                index,
                prev,
                next,
                from,
                until,
            };
        }
        let behind = windows.next(next, index);
        if window.until < from {
            prev = next;
            index += 1;
        } else {
            from = from.min(window.from);
            until = until.max(window.until);
            let joined = windows.take(next, index);
            spares.push(joined, window);
        }
        next = behind;
    }
    Gap {
        index,
        prev,
        next,
        from,
        until,
    }
}

/// Takes the seconds out of window `i`. Says how many windows stand in its place.
fn cut_at(
    windows: &mut Chain,
    spares: &mut Chain,
    place: Place,
    i: usize,
    from: Time,
    until: Time,
) -> usize
    requires at { IsAt windows.old place.at i }
    requires spare { (node_of windows.old i).window.from < from → until < (node_of windows.old i).window.until → 0 < length spares.old }
    requires small { length windows.old + length spares.old < 2 ^ 64 }
    ensures windows { windows_of windows.new ≡ take i (windows_of windows.old) ++ (cut_window (span from until) (node_of windows.old i).window (ids_of (windows_of spares.old)) ++ drop (i + 1) (windows_of windows.old)) }
    ensures spares { ids_of (windows_of spares.new) ≡ cut_spare (span from until) (node_of windows.old i).window (ids_of (windows_of spares.old)) }
    ensures stands { result ≡ length (cut_window (span from until) (node_of windows.old i).window (ids_of (windows_of spares.old))) }
    ensures next { place_of windows.new (i + result) ≡ place_of windows.old (i + 1) }
    ensures nodes { SameNodes windows.old spares.old windows.new spares.new }
{
    let whole = windows.window(place, i);
    let left = Window {
        from: whole.from,
        until: whole.until.min(from),
        id: whole.id,
    };
    let right = Window {
        from: whole.from.max(until),
        until: whole.until,
        id: whole.id,
    };
    if whole.from < from {
        windows.set(place, i, left);
        if until < whole.until {
            let next = windows.next(place, i);
            let id = spares.top().id;
            let spare = spares.pop();
            windows.put(
                i + 1,
                place,
                next,
                spare,
                Window {
                    from: right.from,
                    until: right.until,
                    id,
                },
            );
            return 2;
        }
        return 1;
    }
    if until < whole.until {
        windows.set(place, i, right);
        return 1;
    }
    let node = windows.take(place, i);
    spares.push(node, whole);
    0
}
