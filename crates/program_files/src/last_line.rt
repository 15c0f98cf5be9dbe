//! The lines that end a call whose files can't be read, or whose airport file is refused.
ghost use Rattle.std.specs.Prelude.{◌≡◌, ◌≤◌, length};
ghost use Rattle.airport_rules.specs.Faults.{fault_word};
ghost use Rattle.program_files.specs.Lines.{read_fault_line, too_large_line, refusal_line};

use airport_file::AirportFault;
use itoa::Buffer;
use taxi_text::ShortText;

/// A read failed, or a file isn't there.
pub fn read_fault_line() -> &'static [u8]
    ensures { result.now ≡ read_fault_line }
{
    b"read fault\n"
}

/// A file is longer than its limit.
pub fn too_large_line() -> &'static [u8]
    ensures { result.now ≡ too_large_line }
{
    b"too large\n"
}

/// The record that breaks a rule, counted from 1, and the rule.
#[tactic(auto, unfolding(crate::specs::Lines::refusal_line))]
pub(crate) fn refusal_line(at: u32, why: AirportFault) -> ShortText
    ensures { result ≡ refusal_line (record { at = at; why = why }) }
{
    let mut digits = Buffer::new();
    let mut text = ShortText::new();
    text.push(b"airport refused at record ");
    text.push(digits.format(at).as_bytes());
    text.push(b": ");
    text.push(short_word(why));
    text.push(b"\n");
    text
}

fn short_word(why: AirportFault) -> &'static [u8]
    ensures same { result.now ≡ fault_word why }
    ensures short { length result.now ≤ 14 }
{
    why.word()
}
