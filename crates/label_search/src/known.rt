//! What is known of a cell: its label, if it has one.
ghost use Rattle.std.specs.Prelude.{◌≡◌, ◌<◌, ◌^◌, ◌↔◌, Some, None, IsTrue, IfSome};
ghost use Rattle.label_search.specs.Values.{value_kept};

use crate::labels::Label;
use std::marker::Model;

/// The label of a cell, if it has one. It takes eight bytes.
#[derive(Clone, Copy)]
pub(crate) struct Known {
    // The greatest number where there is no label, and 0 the other. No label has that value.
    value: u32,
    via: u32,
}

impl Model for Known {
    ghost use Rattle.std.specs.Prelude.{Option};
    ghost use Rattle.label_search.specs.declared.labels.Label.{Label};

    ghost Value = { Option Label };

    ghost use Rattle.label_search.specs.Known.{label_told, told_value, told_via, IsTold, told_value-label_told, told_via-label_told};

    ghost view = { λ k. label_told k.value k.via };

    ghost invariant = { λ k. IsTold k.value k.via };

    ghost inverse = { λ label. record { value = told_value label; via = told_via label } };

    ghost inverse_ok = { λ k is i. record { value = told_value-label_told k.value k.via i; via = told_via-label_told k.value k.via is i } };
}

impl Known {
    /// No label.
    pub(crate) fn none() -> Known
        ensures { result ≡ None }
    {
        Known {
            value: u32::MAX,
            via: 0,
        }
    }

    pub(crate) fn of(label: Label) -> Known
        requires value { label.value < 2 ^ 31 }
        requires via { label.via < 2 ^ 32 }
        ensures { result ≡ Some label }
    {
        Known {
            value: label.value,
            via: label.via as u32,
        }
    }

    pub(crate) fn get(self) -> Option<Label>
        ensures { result ≡ self }
    {
        if self.value == u32::MAX {
            None
        } else {
            Some(Label {
                value: self.value,
                via: self.via as usize,
            })
        }
    }

    /// The value of the label, if there is one and it is below the bound, if there is a bound. One comparison tells both.
    pub(crate) fn value_below(self, bound: Option<u32>) -> Option<u32>
        ensures { result ≡ value_kept bound self }
    {
        if self.value < bound.unwrap_or(u32::MAX) {
            Some(self.value)
        } else {
            None
        }
    }

    /// Whether the cell's value gets less by the label.
    pub(crate) fn gets_less_by(self, label: Label) -> bool
        requires { label.value < 2 ^ 31 }
        ensures { IsTrue result ↔ IfSome self (λ l. label.value < l.value) }
    {
        label.value < self.value
    }
}
