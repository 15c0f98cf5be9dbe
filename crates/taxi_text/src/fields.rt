//! Numbers and arc words.
ghost use Rattle.std.specs.Prelude.{◌≡◌, IsTrue};
ghost use Rattle.std.specs.Char.{is_ascii_digit};
ghost use Rattle.std.specs.List.{list_all};
ghost use Rattle.std.specs.Str.Parse.{digits_value};
ghost use Rattle.taxi_text.specs.Fields.{is_number, number_of, arc_word_of};

use taxi_base::Name;

/// The number that 1 to 7 decimal digits write. Leading zeros are accepted.
pub fn read_number(word: &[u8]) -> Option<u32>
    ensures { result ≡ number_of word.now }
{
    if !is_number(word) {
        return None;
    }
    Some(value_of(word))
}

fn is_number(word: &[u8]) -> bool
    ensures { result ≡ is_number word.now }
{
    !word.is_empty() && word.len() <= 7 && are_digits(word)
}

fn are_digits(word: &[u8]) -> bool
    ensures { result ≡ list_all is_ascii_digit word.now }
{
    word.iter().all(|b| b.is_ascii_digit())
}

fn value_of(digits: &[u8]) -> u32
    requires { IsTrue (is_number digits.now) }
    ensures { result ≡ digits_value 10 digits.now }
{
    let mut number = 0;
    for digit in digits {
        number = number * 10 + u32::from(*digit - b'0');
    }
    number
}

/// The segment's name of an arc word, and whether its last byte is `+` for forward, not `-` for backward.
pub fn read_arc_word(word: &[u8]) -> Option<(Name, bool)>
    ensures { result ≡ arc_word_of word.now }
{
    let (sign, name) = word.split_last()?;
    let forward = match sign {
        b'+' => true,
        b'-' => false,
        _ => return None,
    };
    let segment = Name::read(name)?;
    Some((segment, forward))
}
