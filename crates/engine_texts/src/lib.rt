//! An engine with what it answered, and the texts that tell of it: its last reply as an object, the plan, the figures, a checkpoint, and why a
//! line would be answered as it would.
#![tactic(auto)]

mod again;
mod explaining;
mod log;
mod refused;
mod session;
mod texts;

pub use refused::NoText;
pub use session::Session;
