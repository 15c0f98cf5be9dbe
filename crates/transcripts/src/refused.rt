//! Why a block does not pass.
use replies::Rule;
use taxi_base::Memory;

/// Why a block does not pass.
#[derive(Clone, Copy, Debug, Drop)]
pub enum CheckRefused {
    /// The first rule that the block breaks.
    Wrong { rule: Rule },
    Memory,
}

impl From<Memory> for CheckRefused {
    ghost use Rattle.std.specs.Prelude.{◌≡◌};
    ghost use Rattle.transcripts.specs.declared.refused.CheckRefused.TheVariants as refused;

    ghost from_gives = { λ _ e. e ≡ refused.Memory };

    fn from(_memory: Memory) -> CheckRefused {
        CheckRefused::Memory
    }
}
