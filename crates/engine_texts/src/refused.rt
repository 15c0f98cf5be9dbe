//! Why there is no text.
use taxi_base::Memory;

/// Why a text isn't made.
#[derive(Clone, Copy)]
pub enum NoText {
    /// A plan's start is no civil time of a year before 2999.
    Start,
    /// Memory ran out, for the text or for a command before.
    Memory(Memory),
}

impl From<Memory> for NoText {
    ghost use Rattle.std.specs.Prelude.{◌≡◌};
    ghost use Rattle.engine_texts.specs.declared.refused.NoText.TheVariants as refused;

    ghost from_gives = { λ memory why. why ≡ refused.Memory memory };

    fn from(memory: Memory) -> NoText {
        NoText::Memory(memory)
    }
}
