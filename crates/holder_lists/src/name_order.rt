//! The order of names, by one number for each: it is compared at once, where bytes are a loop.
ghost use Rattle.std.specs.Prelude.{◌≡◌, IsTrue, slice_index_or};
ghost use Rattle.taxi_base.specs.Words.{is_name};
ghost use Rattle.holder_lists.specs.NameOrder.{order_of, order_at};

use std::cmp::Ordering;
use taxi_base::Name;

/// The number of a name: its bytes as digits, with zeros behind them up to sixteen.
pub(crate) fn order_of(name: &Name) -> u128
    ensures order { result ≡ order_of name.now }
    ensures name { IsTrue (is_name name.now) }
{
    let bytes = name.bytes();
    let mut order: u128 = 0;
    for place in 0..16 {
        order = order * 256 + byte_at(bytes, place) as u128;
    }
    order
}

// The byte at a place, and zero past the last.
fn byte_at(bytes: &[u8], place: usize) -> u8
    ensures { result ≡ slice_index_or bytes.now place 0 }
{
    match bytes.get(place) {
        Some(byte) => *byte,
        None => 0,
    }
}

/// How the number at a key compares with another.
pub(crate) fn order_at(orders: &[u128], key: usize, order: u128) -> Ordering
    ensures { result ≡ order_at orders.now order key }
{
    let own = match orders.get(key) {
        Some(own) => *own,
        None => 0,
    };
    own.cmp(&order)
}
