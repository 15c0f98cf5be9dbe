//! Why no block was read.
use taxi_base::Memory;
use thiserror::Error;

/// Why no block was read.
#[derive(Debug, Drop, Error)]
pub enum BlockRefused {
    #[error("the bytes do not begin with a block")]
    NotABlock,
    #[error("out of memory")]
    Memory,
}

impl From<Memory> for BlockRefused {
    ghost use Rattle.std.specs.Prelude.{◌≡◌};
    ghost use Rattle.block_reader.specs.declared.refused.BlockRefused.TheVariants as refused;

    ghost from_gives = { λ _ e. e ≡ refused.Memory };

    fn from(_memory: Memory) -> BlockRefused {
        BlockRefused::Memory
    }
}
