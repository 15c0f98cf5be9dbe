//! The windows of a list in their order.
ghost use Rattle.std.specs.Iterator.{YieldsFirst, item_count};

use crate::Window;
use crate::chain::Chain;
use crate::node::Place;
use std::iter::Iterator;
use std::marker::Model;

/// The windows from first to last. A contract sees those that are left.
#[derive(Drop)]
pub struct Windows<'a> {
    pub(crate) chain: &'a Chain,
    pub(crate) place: Place,
    pub(crate) index: usize,
}

impl<'a> Model for Windows<'a> {
    ghost use Rattle.std.specs.Prelude.{◌≡◌, ◌<◌, ◌≤◌, List, length, drop};
    ghost use Rattle.interval_list.specs.Cells.{windows_of, place_of};
    ghost use Rattle.interval_list.specs.declared.window.Window.{Window};

    ghost Value = { List Window };

    ghost view = { λ w. drop w.index (windows_of w.chain.now) };

    ghost invariant = { λ w. (w.index ≤ length w.chain.now) × (w.index < length w.chain.now → w.place.at ≡ place_of w.chain.now w.index) };
}

impl<'a> Iterator for Windows<'a> {
    type Item = Window;

    ghost next_gives = { YieldsFirst (λ s. s) };

    ghost remaining = { item_count (λ s. s) };

    fn next(&mut self) -> Option<Window> {
        let (chain, place, index) = (self.chain, self.place, self.index);
        if index == chain.len() {
            return None;
        }
        self.place = chain.next(place, index);
        self.index = index + 1;
        Some(chain.window(place, index))
    }
}
