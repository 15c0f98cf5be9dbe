//! The records of plain lines, read where they stand.
//!
//! A line is plain if a line feed ends it, and it has no double quote and no carriage return. Its fields are what stands
//! between its commas, so they are taken as slices of the text.
ghost use Rattle.std.specs.Prelude.{◌≡◌, ◌<◌, ◌∷◌, ◌++◌, [], Some, None, true, false, length, All, IfOk, IfSome};
ghost use Rattle.airport_rules.specs.Judged.{texts_of};
ghost use Rattle.airport_file.specs.Rows.{rows_of};
ghost use Rattle.airport_file.specs.Plain.{is_mark};
ghost use Rattle.csv.specs.Machine.{next_record};
ghost use Rattle.csv.specs.Reading.{default_config};
ghost use Rattle.csv.specs.declared.parser.State.TheVariants as st;

use taxi_base::Memory;

/// Reads the fields of the first line into `fields`, and gives the text behind it. None where the line is not plain.
pub(crate) fn read_line<'a>(
    text: &'a [u8],
    fields: &mut Vec<&'a [u8]>,
) -> Result<Option<&'a [u8]>, Memory>
    ensures row { IfOk result (λ found. IfSome found (λ behind. rows_of st.StartRecord (Some text.now) ≡ texts_of fields.new.items ∷ rows_of st.StartRecord (Some behind.now))) }
    ensures fewer { IfOk result (λ found. IfSome found (λ behind. length behind.now < length text.now)) }
{
    fields.clear();
    if !starts_line(text) {
        return Ok(None);
    }
    let mut rest = text;
    'fields: while let Some((field, mark, behind)) = next_field(rest) {
        if mark == b'\n' {
            fields.push(field)?;
            return Ok(Some(behind));
        }
        if mark != b',' {
            return Ok(None);
        }
        fields.push(field)?;
        rest = behind;
    }
    Ok(None)
}

/// Whether a text starts with the first field of a line, which has a byte at least.
fn starts_line(text: &[u8]) -> bool
    ensures { result ≡ true → next_record default_config st.StartRecord [] [] text.now ≡ next_record default_config st.StartField [] [] text.now }
{
    match text.first() {
        Some(first) => !is_mark(*first),
        None => false,
    }
}

/// What comes before the first mark of a text, the mark, and what comes after it.
fn next_field(text: &[u8]) -> Option<(&[u8], u8, &[u8])>
    ensures cut { IfSome result (λ cut. text.now ≡ cut.0.now ++ cut.1 ∷ cut.2.now) }
    ensures field { IfSome result (λ cut. All (λ b. is_mark b ≡ false) cut.0.now) }
{
    let end = text.iter().position(|byte| is_mark(*byte))?;
    Some((&text[..end], text[end], &text[end + 1..]))
}

/// Whether a byte is one of the four that a reader of records heeds.
fn is_mark(byte: u8) -> bool
    ensures { result ≡ is_mark byte }
{
    matches!(byte, b',' | b'\n' | b'\r' | b'"')
}
