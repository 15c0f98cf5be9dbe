//! Why no engine is opened.
ghost use Rattle.std.specs.Prelude.{◌≡◌};
ghost use Rattle.taxi_library.specs.Reasons.{number_of};

use airport_file::AirportFault;
use taxi_base::Memory;

/// Why no engine is made of some bytes, as far as memory suffices to tell.
#[derive(Clone, Copy)]
pub(crate) enum Why {
    /// A record breaks a rule: the first such, counted from 1.
    Refused { at: u32, rule: AirportFault },
    /// They are more than an airport file may have.
    TooLarge,
    /// Memory ran out before that was known.
    Memory(Memory),
}

/// The number by which C knows why no engine is made, or that nothing stands in the way.
pub(crate) fn number_of(why: Option<Why>) -> u8
    ensures { result ≡ number_of why }
{
    match why {
        None => 0,
        Some(Why::Refused { .. }) => 1,
        Some(Why::TooLarge) => 2,
        Some(Why::Memory(_)) => 3,
    }
}

impl From<Memory> for Why {
    ghost use Rattle.std.specs.Prelude.{◌≡◌};
    ghost use Rattle.taxi_library.specs.declared.why.Why.TheVariants as reason;

    ghost from_gives = { λ memory why. why ≡ reason.Memory memory };

    fn from(memory: Memory) -> Why {
        Why::Memory(memory)
    }
}
