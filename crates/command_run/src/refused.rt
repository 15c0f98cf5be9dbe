//! Why a run ends before the end of its file.
use taxi_base::Memory;
use taxi_io::{ReadRefused, Trouble};
use thiserror::Error;

/// Why a run ends before the end of its file.
#[derive(Clone, Copy, Debug, PartialEq, Eq, Error)]
pub enum RunRefused {
    /// A read of the file failed.
    #[error("a read failed")]
    ReadFault,
    /// The file has more bytes than the limit.
    #[error("the file is too large")]
    TooLarge,
    /// A block could not be written.
    #[error("a write failed")]
    WriteFault,
    /// Memory ran out.
    #[error("out of memory")]
    Memory,
}

impl From<ReadRefused> for RunRefused {
    ghost use Rattle.std.specs.Prelude.{◌≡◌};
    ghost use Rattle.command_run.specs.Refusals.{refused_for_read};

    ghost from_gives = { λ read run. run ≡ refused_for_read read };

    fn from(refused: ReadRefused) -> RunRefused {
        match refused {
            ReadRefused::Fault => RunRefused::ReadFault,
            ReadRefused::TooLarge => RunRefused::TooLarge,
            ReadRefused::Memory => RunRefused::Memory,
        }
    }
}

/// A trouble of the output.
impl From<Trouble> for RunRefused {
    ghost use Rattle.std.specs.Prelude.{◌≡◌};
    ghost use Rattle.command_run.specs.Refusals.{refused_for_write};

    ghost from_gives = { λ trouble run. run ≡ refused_for_write trouble };

    fn from(trouble: Trouble) -> RunRefused {
        match trouble {
            Trouble::Failed => RunRefused::WriteFault,
            Trouble::Memory => RunRefused::Memory,
        }
    }
}

impl From<Memory> for RunRefused {
    ghost use Rattle.std.specs.Prelude.{◌≡◌};
    ghost use Rattle.command_run.specs.declared.refused.RunRefused.TheVariants as refused;

    ghost from_gives = { λ _ run. run ≡ refused.Memory };

    fn from(_e: Memory) -> RunRefused {
        RunRefused::Memory
    }
}
