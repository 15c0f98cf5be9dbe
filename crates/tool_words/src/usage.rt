//! The line for words of no form.
ghost use Rattle.std.specs.Prelude.{◌≡◌};
ghost use Rattle.tool_words.specs.Usage.{usage_line};

/// The line that tells the forms.
pub fn usage_line() -> &'static [u8]
    ensures { result.now ≡ usage_line }
{
    b"usage: taxi-tools plan AIRPORT COMMANDS [START]; taxi-tools figures AIRPORT COMMANDS; taxi-tools explain AIRPORT COMMANDS K; taxi-tools checkpoint AIRPORT COMMANDS; taxi-tools lint AIRPORT; taxi-tools graph AIRPORT; taxi-tools json AIRPORT COMMANDS\n"
}
