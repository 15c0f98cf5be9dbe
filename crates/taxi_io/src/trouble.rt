//! How a read or a write may end other than well.
use std::alloc::AllocError;
use std::io;
use thiserror::Error;

/// What one call of a shelf or a sink answers in place of a result.
#[derive(Clone, Copy, Debug, PartialEq, Eq, Error)]
pub enum Trouble {
    /// The file or the output failed, which raised the count of faults.
    #[error("a read or a write failed")]
    Failed,
    /// Memory ran out.
    #[error("out of memory")]
    Memory,
}

impl From<AllocError> for Trouble {
    ghost use Rattle.std.specs.Prelude.{◌≡◌};
    ghost use Rattle.taxi_io.specs.declared.trouble.Trouble.TheVariants as trouble;

    ghost from_gives = { λ _ t. t ≡ trouble.Memory };

    fn from(_e: AllocError) -> Trouble {
        Trouble::Memory
    }
}

/// An error of the machine is a failure, but for want of memory.
impl From<io::Error> for Trouble {
    ghost use Rattle.std.specs.Prelude.{◌≡◌};
    ghost use Rattle.std.specs.IoError.{error_kind};
    ghost use Rattle.taxi_io.specs.Troubles.{trouble_for};

    ghost from_gives = { λ error trouble. trouble ≡ trouble_for (error_kind error) };

    fn from(error: io::Error) -> Trouble {
        if error.kind() == io::ErrorKind::OutOfMemory {
            Trouble::Memory
        } else {
            Trouble::Failed
        }
    }
}

/// Why a file was not read whole.
#[derive(Clone, Copy, Debug, PartialEq, Eq, Error)]
pub enum ReadRefused {
    /// A call of the shelf failed.
    #[error("a read failed")]
    Fault,
    /// The file has more bytes than the limit.
    #[error("the file is too large")]
    TooLarge,
    /// Memory ran out.
    #[error("out of memory")]
    Memory,
}

impl From<Trouble> for ReadRefused {
    ghost use Rattle.std.specs.Prelude.{◌≡◌};
    ghost use Rattle.taxi_io.specs.Refusals.{refused_for};

    ghost from_gives = { λ t r. r ≡ refused_for t };

    fn from(trouble: Trouble) -> ReadRefused {
        match trouble {
            Trouble::Failed => ReadRefused::Fault,
            Trouble::Memory => ReadRefused::Memory,
        }
    }
}

impl From<AllocError> for ReadRefused {
    ghost use Rattle.std.specs.Prelude.{◌≡◌};
    ghost use Rattle.taxi_io.specs.declared.trouble.ReadRefused.TheVariants as refused;

    ghost from_gives = { λ _ r. r ≡ refused.Memory };

    fn from(_e: AllocError) -> ReadRefused {
        ReadRefused::Memory
    }
}
