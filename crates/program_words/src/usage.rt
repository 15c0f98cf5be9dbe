//! The line for words of no form.
ghost use Rattle.std.specs.Prelude.{◌≡◌};
ghost use Rattle.program_words.specs.Usage.{usage_line};

/// The line that tells the forms.
pub fn usage_line() -> &'static [u8]
    ensures { result.now ≡ usage_line }
{
    b"usage: taxi route AIRPORT COMMANDS; taxi check AIRPORT COMMANDS TRANSCRIPT; taxi generate NUMBER SIDE FLIGHTS; taxi migrate AIRPORT; taxi import AIRPORT SCHEDULE\n"
}
