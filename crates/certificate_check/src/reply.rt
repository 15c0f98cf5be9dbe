//! Rule `reply`: whether a block is of the form that is due.
ghost use Rattle.std.specs.Prelude.{◌≡◌, ◌↔◌, IsTrue};
ghost use Rattle.replies.specs.declared.block.Block.TheVariants.{Refused, Cancelled};
ghost use Rattle.certificate_check.specs.Judged.{passed_if, answer_of};

use crate::CheckRefused;
use replies::{Block, Rule};
use taxi_base::{Name, Refusal};

/// Passes where a block is of the form that is due.
pub fn pass_if(kept: bool) -> Result<(), CheckRefused>
    ensures { result ≡ passed_if kept }
{
    if kept {
        Ok(())
    } else {
        Err(CheckRefused::Wrong { rule: Rule::Reply })
    }
}

/// Passes where no rule is broken.
pub fn pass_unless(broken: Option<Rule>) -> Result<(), CheckRefused>
    ensures { result ≡ answer_of broken }
{
    match broken {
        None => Ok(()),
        Some(rule) => Err(CheckRefused::Wrong { rule }),
    }
}

/// Whether a block is a refusal.
pub fn is_refusal(block: &Block, why: &Refusal) -> bool
    ensures { IsTrue result ↔ (block.now ≡ Refused why.now) }
{
    match block {
        Block::Refused(told) => told == why,
        _ => false,
    }
}

/// Whether a block tells that a flight is cancelled.
pub fn is_cancelled(block: &Block, name: &Name) -> bool
    ensures { IsTrue result ↔ (block.now ≡ Cancelled name.now) }
{
    match block {
        Block::Cancelled { flight } => flight == name,
        _ => false,
    }
}
