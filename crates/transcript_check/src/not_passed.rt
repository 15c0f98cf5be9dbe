//! Why a block is not passed.
use crate::failure::Failure;
use block_reader::BlockRefused;
use transcripts::CheckRefused;

/// Why a block is not passed.
#[derive(Clone, Copy)]
pub(crate) enum NotPassed {
    /// It fails.
    Fails(Failure),
    /// Memory ran out before that was known.
    Memory,
}

/// No block is read where one is due.
impl From<BlockRefused> for NotPassed {
    ghost use Rattle.std.specs.Prelude.{◌≡◌};
    ghost use Rattle.transcript_check.specs.Verdicts.{not_passed_for_read};

    ghost from_gives = { λ read e. e ≡ not_passed_for_read read };

    fn from(refused: BlockRefused) -> NotPassed {
        match refused {
            BlockRefused::NotABlock => NotPassed::Fails(Failure::Form),
            BlockRefused::Memory => NotPassed::Memory,
        }
    }
}

/// The checker refuses it.
impl From<CheckRefused> for NotPassed {
    ghost use Rattle.std.specs.Prelude.{◌≡◌};
    ghost use Rattle.transcript_check.specs.Verdicts.{not_passed_for_check};

    ghost from_gives = { λ check e. e ≡ not_passed_for_check check };

    fn from(refused: CheckRefused) -> NotPassed {
        match refused {
            CheckRefused::Wrong { rule } => NotPassed::Fails(Failure::Rule(rule)),
            CheckRefused::Memory => NotPassed::Memory,
        }
    }
}
