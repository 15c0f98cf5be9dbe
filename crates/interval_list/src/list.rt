//! A segment's free windows in order. No window is empty and no two touch.
//! Seconds are taken out and given back in nodes that were made before, so neither asks for memory.
ghost use Rattle.std.specs.Prelude.{ℕ, ◌≡◌, ◌+◌, ◌-◌, ◌^◌, ◌<◌, ◌≤◌, max, not, ◌&&◌, ◌||◌, [], ◌∷◌, ◌++◌, length, reverse, All, OnOk, OnErr};
ghost use Rattle.taxi_base.specs.Windows.{span_has, covers};
ghost use Rattle.interval_list.specs.Intervals.{Intervals, span, spans_of, owned, drawn, IsNormal, OwnsSame, without_span, with_span, KeepsUnmet, KeepsUntouched};

use crate::chain::Chain;
use crate::edits::{give_back, take_out};
use crate::iter::Windows;
use crate::stock::Stock;
use crate::{Ids, Window};
use std::alloc::Global;
use std::marker::Model;
use taxi_base::{Memory, Time};

/// Windows and spare nodes, and the stock that nodes are drawn from. It is seen as its windows in order and the ids of its
/// spare nodes.
pub struct IntervalList {
    windows: Chain,
    spares: Chain,
    stock: Stock,
}

impl Model for IntervalList {
    ghost use Rattle.std.specs.Prelude.{◌+◌, ◌^◌, ◌<◌, ◌++◌, length};
    ghost use Rattle.interval_list.specs.Blocks.{AreOut};
    ghost use Rattle.interval_list.specs.Cells.{windows_of, places};
    ghost use Rattle.interval_list.specs.Intervals.{Intervals, ids_of, IsNormal};

    ghost Value = { Intervals };

    ghost view = { λ l. record { windows = windows_of l.windows; spare = ids_of (windows_of l.spares) } };

    ghost invariant = { λ l. IsNormal (record { windows = windows_of l.windows; spare = ids_of (windows_of l.spares) }) × (length l.windows + length l.spares < 2 ^ 64) × AreOut (places l.windows ++ places l.spares) l.stock };
}

impl Drop for IntervalList {
    fn drop(self) {
        let IntervalList {
            windows,
            spares,
            stock,
        } = self;
        stock.free(windows.into_nodes(), spares.into_nodes());
    }
}

impl IntervalList {
    /// No window and no spare node.
    pub fn new(alloc: Global) -> IntervalList
        ensures { result ≡ record { windows = []; spare = [] } }
    {
        IntervalList {
            windows: Chain::new(),
            spares: Chain::new(),
            stock: Stock::new(alloc),
        }
    }

    /// How many windows there are.
    pub fn len(&self) -> usize
        ensures { result ≡ length self.now.windows }
    {
        self.windows.len()
    }

    /// How many spare nodes there are.
    pub fn spare(&self) -> usize
        ensures { result ≡ length self.now.spare }
    {
        self.spares.len()
    }

    /// The windows from first to last.
    pub fn windows(&self) -> Windows<'_>
        ensures windows { result ≡ self.now.windows }
        ensures normal { IsNormal self.now }
    {
        Windows {
            chain: &self.windows,
            place: self.windows.first(),
            index: 0,
        }
    }

    /// Makes spare nodes until there are `n`. What was made before memory ran out stays.
    #[inline(always)]
    pub fn reserve(&mut self, ids: &mut Ids, n: usize) -> Result<(), Memory>
        requires below { All (λ id. id < ids.old.next) (owned self.old) }
        requires fits { ids.old.next + n < 2 ^ 64 }
        requires few { length self.old.windows + n < 2 ^ 64 }
        ensures windows { self.new.windows ≡ self.old.windows }
        ensures spare { self.new.spare ≡ drawn ids.old.next (ids.new.next - ids.old.next) ++ self.old.spare }
        ensures next { ids.new.next + length self.old.spare ≡ ids.old.next + length self.new.spare }
        ensures below { All (λ id. id < ids.new.next) (owned self.new) }
        ensures normal { IsNormal self.new }
        ensures ok { OnOk result (length self.new.spare ≡ max n (length self.old.spare)) }
        ensures err { OnErr result (length self.new.spare ≤ max n (length self.old.spare)) }
    {
        while self.spares.len() < n {
            self.draw(ids)?;
        }
        Ok(())
    }

    /// Takes the seconds from `from` up to `until` out. A window that has none of them stays as it is.
    pub fn subtract(&mut self, from: Time, until: Time)
        requires some { from < until }
        requires room { length (without_span (span from until) (spans_of self.old.windows)) ≤ length self.old.windows + length self.old.spare }
        ensures seconds { (t : ℕ) → covers (spans_of self.new.windows) t ≡ (covers (spans_of self.old.windows) t && not (span_has (span from until) t)) }
        ensures spans { spans_of self.new.windows ≡ without_span (span from until) (spans_of self.old.windows) }
        ensures normal { IsNormal self.new }
        ensures kept { KeepsUnmet (span from until) self.old.windows self.new.windows }
        ensures ids { OwnsSame self.old self.new }
        ensures number { length self.new.windows + length self.new.spare ≡ length self.old.windows + length self.old.spare }
    {
        take_out(&mut self.windows, &mut self.spares, from, until);
    }

    /// Gives the seconds from `from` up to `until` back, in one window with those that they meet or touch.
    /// Every other window stays as it is.
    pub fn add(&mut self, from: Time, until: Time)
        requires some { from < until }
        requires room { length (with_span (span from until) (spans_of self.old.windows)) ≤ length self.old.windows + length self.old.spare }
        ensures seconds { (t : ℕ) → covers (spans_of self.new.windows) t ≡ (covers (spans_of self.old.windows) t || span_has (span from until) t) }
        ensures spans { spans_of self.new.windows ≡ with_span (span from until) (spans_of self.old.windows) }
        ensures normal { IsNormal self.new }
        ensures kept { KeepsUntouched (span from until) self.old.windows self.new.windows }
        ensures ids { OwnsSame self.old self.new }
        ensures number { length self.new.windows + length self.new.spare ≡ length self.old.windows + length self.old.spare }
    {
        give_back(&mut self.windows, &mut self.spares, from, until);
    }

    /// Makes one spare node, with the next id.
    pub fn draw(&mut self, ids: &mut Ids) -> Result<(), Memory>
        requires below { All (λ id. id < ids.old.next) (owned self.old) }
        requires fits { ids.old.next + 1 < 2 ^ 64 }
        requires few { length self.old.windows + length self.old.spare + 1 < 2 ^ 64 }
        ensures ok { OnOk result ((ids.new.next ≡ ids.old.next + 1) × (self.new ≡ record self.old { spare = ids.old.next ∷ self.old.spare })) }
        ensures err { OnErr result ((ids.new ≡ ids.old) × (self.new ≡ self.old)) }
        ensures below { All (λ id. id < ids.new.next) (owned self.new) }
        ensures normal { IsNormal self.new }
    {
        let node = self.stock.draw()?;
        let window = Window {
            from: 0,
            until: 0,
            id: ids.next,
        };
        ids.next += 1;
        self.spares.push(node, window);
        Ok(())
    }
}
