//! The replies to commands: which reply is due, what it promises, and by which rules it is checked.
#![tactic(auto)]

mod block;
mod entries;
mod laws;
mod named;
mod refused;
mod requests;
mod rule;
mod wish;
mod words;

pub use block::Block;
pub use entries::{Entries, Entry, are_told};
pub use laws::{
    due_replies_are_one, exchanges_lower_totals, late_repairs_keep_what_was_entered,
    replies_keep_flights_sound, replies_pass, what_passes_is_best,
};
pub use named::{has_no_runway, has_no_stand, nodes_named};
pub use refused::{delay_refused, fixed_refused};
pub use requests::{asked_in, is_asked_for};
pub use rule::Rule;
pub use wish::Wish;
pub use words::{Named, arrival_words, departure_words};
