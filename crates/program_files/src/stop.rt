//! Why a call ends before anything is done with its files.
use airport_file::{AirportFault, AirportRefused};
use taxi_base::Memory;
use taxi_io::{ReadRefused, Trouble};

/// Why a call ends before anything is done with its files.
#[derive(Drop)]
pub enum Stop {
    Refused { at: u32, why: AirportFault },
    ReadFault,
    TooLarge,
    Memory,
}

impl From<ReadRefused> for Stop {
    ghost use Rattle.std.specs.Prelude.{◌≡◌};
    ghost use Rattle.program_files.specs.Stops.{stop_for};

    ghost from_gives = { λ refused stop. stop ≡ stop_for refused };

    fn from(refused: ReadRefused) -> Stop {
        match refused {
            ReadRefused::Fault => Stop::ReadFault,
            ReadRefused::TooLarge => Stop::TooLarge,
            ReadRefused::Memory => Stop::Memory,
        }
    }
}

/// An airport file that is no airport.
impl From<AirportRefused> for Stop {
    ghost use Rattle.std.specs.Prelude.{◌≡◌};
    ghost use Rattle.program_files.specs.Stops.{stop_for_airport};

    ghost from_gives = { λ refused stop. stop ≡ stop_for_airport refused };

    fn from(refused: AirportRefused) -> Stop {
        match refused {
            AirportRefused::Bad { at, why } => Stop::Refused { at, why },
            AirportRefused::Memory => Stop::Memory,
        }
    }
}

/// A trouble of a file that is to be begun.
impl From<Trouble> for Stop {
    ghost use Rattle.std.specs.Prelude.{◌≡◌};
    ghost use Rattle.program_files.specs.Stops.{stop_for_begin};

    ghost from_gives = { λ trouble stop. stop ≡ stop_for_begin trouble };

    fn from(trouble: Trouble) -> Stop {
        match trouble {
            Trouble::Failed => Stop::ReadFault,
            Trouble::Memory => Stop::Memory,
        }
    }
}

/// Memory that ran out over the files that were read.
impl From<Memory> for Stop {
    ghost use Rattle.std.specs.Prelude.{◌≡◌};
    ghost use Rattle.program_files.specs.declared.stop.Stop.TheVariants as stops;

    ghost from_gives = { λ _ stop. stop ≡ stops.Memory };

    fn from(_memory: Memory) -> Stop {
        Stop::Memory
    }
}
