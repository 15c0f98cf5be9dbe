//! The lines that end an import whose schedule is refused.
ghost use Rattle.std.specs.Prelude.{◌≡◌};
ghost use Rattle.text_verbs.specs.Lines.{first_row_line, bad_start_line};

/// The first record is another than it must be.
pub(crate) fn first_row_line() -> &'static [u8]
    ensures { result.now ≡ first_row_line }
{
    b"schedule refused at record 1: first-row\n"
}

/// The second record is another than it must be.
pub(crate) fn bad_start_line() -> &'static [u8]
    ensures { result.now ≡ bad_start_line }
{
    b"schedule refused at record 2: bad-start\n"
}
