//! What a status is to whoever runs the program.
ghost use Rattle.std.specs.Prelude.{◌≡◌};
ghost use Rattle.std.specs.Process.{exit_status};
ghost use Rattle.program_files.specs.Exit.{number_of};

use crate::status::Status;
use std::process::ExitCode;

/// The exit status of a call: the status's number.
pub fn exit_code(status: Status) -> ExitCode
    ensures { exit_status result ≡ number_of status }
{
    ExitCode::from(status as u8)
}
