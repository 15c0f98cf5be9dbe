//! The engine: one command in, one reply out, over the flights and work parties in force.
#![tactic(auto)]

mod batching;
mod cancelling;
mod choosing;
mod engine;
mod filing;
mod late;
mod reply;
mod reporting;
mod rerouting;
mod router;
mod routing;
mod shutting;
mod texts;
mod windows;

pub use engine::Engine;
