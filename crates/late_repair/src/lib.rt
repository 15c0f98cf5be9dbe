//! A flight that stays on its segment longer than planned: who is in its way, and what each of them is answered at its turn.
#![tactic(auto)]

mod delay;
mod force;
mod holder;
mod kept;
mod meeting;
mod placing;
mod repairing;
mod seeking;
mod taken_out;
mod turn;
mod who;

pub use repairing::{Lateness, Repaired, repair};
pub use taken_out::{TakenOut, take_back};
