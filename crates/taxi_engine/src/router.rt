//! The engine as the router of a run.
use crate::Engine;
use transcripts::Router;

impl Router for Engine {
    ghost airport = { λ e. e.airport };

    ghost state = { λ e. e.state };

    ghost replied = { λ e. e.reply };

    fn answer(&mut self, line: &[u8]) {
        Engine::answer(self, line);
    }

    fn reply(&self) -> &[u8] {
        Engine::reply(self)
    }
}
