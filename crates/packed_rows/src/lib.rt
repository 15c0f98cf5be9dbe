//! Rows of values in one array.
#![tactic(auto)]

ghost use Rattle.std.specs.Prelude.{◌≡◌, ◌<◌, ◌≤◌, ◌++◌, ◌∷◌, [], Some, length, slice_get, slice_index, OnOk, OnErr};
ghost use Rattle.packed_rows.specs.Rows.{rows_from, CutUpTo};

use std::alloc::{AllocError, Global};
use std::marker::Model;

/// Rows of any lengths in one array, seen by contracts as the list of the rows.
#[derive(Drop)]
pub struct PackedRows<T: Copy> {
    values: Vec<T>,
    // The end of each row in the array. A row starts where the one before it ends.
    ends: Vec<usize>,
}

impl<T: Copy> Model for PackedRows<T> {
    ghost use Rattle.std.specs.Prelude.{List, length};
    ghost use Rattle.packed_rows.specs.Rows.{rows_from, CutUpTo};

    ghost Value = { List (List T) };

    ghost view = { λ r. rows_from 0 r.ends.items r.values.items };

    ghost invariant = { λ r. CutUpTo 0 r.ends.items (length r.values.items) };
}

impl<T: Copy> PackedRows<T> {
    /// No row yet.
    pub fn new(alloc: Global) -> PackedRows<T>
        ensures { result ≡ [] }
    {
        PackedRows {
            values: Vec::new(alloc),
            ends: Vec::new(alloc),
        }
    }

    /// Adds a row behind the others.
    pub fn push_row(&mut self, row: &[T]) -> Result<(), AllocError>
        ensures ok { OnOk result (self.new ≡ self.old ++ row.now ∷ []) }
        ensures err { OnErr result (self.new ≡ self.old) }
    {
        self.ends.reserve(1)?;
        self.values.extend_from_slice(row)?;
        self.ends.push_reserved(self.values.len());
        Ok(())
    }

    /// How many rows there are.
    pub fn rows(&self) -> usize
        ensures { result ≡ length self.now }
    {
        self.ends.len()
    }

    /// The row with this number, in constant time.
    pub fn row(&self, at: usize) -> &[T]
        requires { at < length self.now }
        ensures { slice_get self.now at ≡ Some result.now }
    {
        row_of(&self.values, &self.ends, at)
    }
}

fn row_of<'a, T>(values: &'a [T], ends: &[usize], at: usize) -> &'a [T]
    requires at { at < length ends.now }
    requires cut { CutUpTo 0 ends.now (length values.now) }
    ensures { slice_get (rows_from 0 ends.now values.now) at ≡ Some result.now }
{
    let start = start_of(ends, at);
    let end = ends[at];
    &values[start..end]
}

// A row starts at the end of the one before.
fn start_of(ends: &[usize], at: usize) -> usize
    requires { at < length ends.now }
    ensures { result ≡ slice_index (0 ∷ ends.now) at }
{
    match at {
        0 => 0,
        _ => ends[at - 1],
    }
}
