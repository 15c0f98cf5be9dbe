//! The checker as that of the blocks of a transcript.
use crate::{CheckRefused, Checker};
use replies::Block;
use transcripts::BlockChecker;

impl<'a> BlockChecker for Checker<'a> {
    ghost airport = { λ c. c.airport };

    ghost state = { λ c. c.state };

    fn check_next(&mut self, line: &[u8], block: Block) -> Result<(), CheckRefused> {
        Checker::check_next(self, line, block)
    }
}
