//! The words of a block, read at the front of the bytes.
ghost use Rattle.std.specs.Prelude.{◌≡◌, ◌<◌, ◌≤◌, ◌^◌, ◌*◌, ◌==◌, bytes_eq, IfSome, Some, length, position};
ghost use Rattle.taxi_text.specs.Fields.{name_of};
ghost use Rattle.block_reader.specs.Fields.{digits_of, decimal_of, number_of, count_of, some_count_of, batch_count_of, total_of, step_number_of, kind_of, class_of_word, segment_of_word};
ghost use Rattle.block_reader.specs.Fronts.{IsSeparator, IsFrontOf, worth, worth_of_five, front_number};
ghost use Rattle.block_reader.specs.Reading.{behind, begins_with, word_at, field_at, Finds};

use airport_file::Airport;
use taxi_base::{Class, FlightKind, Name, Segment, Time};

// How many digits a number has at most.
const MOST_DIGITS: usize = 7;

// What a byte that is no digit is worth: more than six digits can write.
const NO: u64 = 1_000_000;

// What each byte is worth as a digit.
static WORTHS: [u64; 256] = [
    NO, NO, NO, NO, NO, NO, NO, NO, NO, NO, NO, NO, NO, NO, NO, NO, NO, NO, NO, NO, NO, NO, NO, NO,
    NO, NO, NO, NO, NO, NO, NO, NO, NO, NO, NO, NO, NO, NO, NO, NO, NO, NO, NO, NO, NO, NO, NO, NO,
    0, 1, 2, 3, 4, 5, 6, 7, 8, 9, NO, NO, NO, NO, NO, NO, NO, NO, NO, NO, NO, NO, NO, NO, NO, NO,
    NO, NO, NO, NO, NO, NO, NO, NO, NO, NO, NO, NO, NO, NO, NO, NO, NO, NO, NO, NO, NO, NO, NO, NO,
    NO, NO, NO, NO, NO, NO, NO, NO, NO, NO, NO, NO, NO, NO, NO, NO, NO, NO, NO, NO, NO, NO, NO, NO,
    NO, NO, NO, NO, NO, NO, NO, NO, NO, NO, NO, NO, NO, NO, NO, NO, NO, NO, NO, NO, NO, NO, NO, NO,
    NO, NO, NO, NO, NO, NO, NO, NO, NO, NO, NO, NO, NO, NO, NO, NO, NO, NO, NO, NO, NO, NO, NO, NO,
    NO, NO, NO, NO, NO, NO, NO, NO, NO, NO, NO, NO, NO, NO, NO, NO, NO, NO, NO, NO, NO, NO, NO, NO,
    NO, NO, NO, NO, NO, NO, NO, NO, NO, NO, NO, NO, NO, NO, NO, NO, NO, NO, NO, NO, NO, NO, NO, NO,
    NO, NO, NO, NO, NO, NO, NO, NO, NO, NO, NO, NO, NO, NO, NO, NO, NO, NO, NO, NO, NO, NO, NO, NO,
    NO, NO, NO, NO, NO, NO, NO, NO, NO, NO, NO, NO, NO, NO,
];

/// What comes after a text that stands at the front.
#[inline(always)]
pub(crate) fn behind<'a>(text: &[u8], bytes: &'a [u8]) -> Option<&'a [u8]>
    ensures { Finds (λ rest. rest.now) result (behind text.now bytes.now) }
{
    if begins_with(text, bytes) {
        Some(&bytes[text.len()..])
    } else {
        None
    }
}

// Whether a text stands at the front. Most texts are short, so they are compared by their ends.
#[inline(always)]
fn begins_with(text: &[u8], bytes: &[u8]) -> bool
    ensures { result ≡ begins_with text.now bytes.now }
{
    if bytes.len() < text.len() {
        return false;
    }
    let front = &bytes[..text.len()];
    match text.len() {
        4..=8 => have_same_fours(text, front),
        9..=16 => have_same_eights(text, front),
        _ => text == front,
    }
}

// Whether two texts are the same, of which the first four bytes and the last four are all. Four bytes are compared as one
// number.
#[inline(always)]
fn have_same_fours(a: &[u8], b: &[u8]) -> bool
    requires long { length a.now ≡ length b.now }
    requires few { (4 ≤ length a.now) × (length a.now ≤ 8) }
    ensures { result ≡ bytes_eq a.now b.now }
{
    let (Some(first), Some(last)) = (a.first_chunk::<4>(), a.last_chunk::<4>()) else {
        return false;
    };
    let (Some(front), Some(back)) = (b.first_chunk::<4>(), b.last_chunk::<4>()) else {
        return false;
    };
    is_same_four(first, front) && is_same_four(last, back)
}

fn is_same_four(a: &[u8; 4], b: &[u8; 4]) -> bool
    ensures { result ≡ bytes_eq a.now b.now }
{
    u32::from_le_bytes(*a) == u32::from_le_bytes(*b)
}

// The same for eight bytes.
#[inline(always)]
fn have_same_eights(a: &[u8], b: &[u8]) -> bool
    requires long { length a.now ≡ length b.now }
    requires few { (8 ≤ length a.now) × (length a.now ≤ 16) }
    ensures { result ≡ bytes_eq a.now b.now }
{
    let (Some(first), Some(last)) = (a.first_chunk::<8>(), a.last_chunk::<8>()) else {
        return false;
    };
    let (Some(front), Some(back)) = (b.first_chunk::<8>(), b.last_chunk::<8>()) else {
        return false;
    };
    is_same_eight(first, front) && is_same_eight(last, back)
}

fn is_same_eight(a: &[u8; 8], b: &[u8; 8]) -> bool
    ensures { result ≡ bytes_eq a.now b.now }
{
    u64::from_le_bytes(*a) == u64::from_le_bytes(*b)
}

/// A word up to its last byte, and what comes after that.
pub(crate) fn word_at(last: u8, bytes: &[u8]) -> Option<(&[u8], &[u8])>
    ensures { Finds (λ x. (x.0.now, x.1.now)) result (word_at last bytes.now) }
{
    match place_of(last, bytes) {
        Some(end) => Some((&bytes[..end], &bytes[end + 1..])),
        None => None,
    }
}

fn place_of(byte: u8, bytes: &[u8]) -> Option<usize>
    ensures place { result ≡ position (λ b. b == byte) bytes.now }
    ensures within { IfSome result (λ at. at < length bytes.now) }
{
    bytes.iter().position(|b| *b == byte)
}

/// The number of at most so many digits that a word writes without a leading zero.
pub(crate) fn decimal_of(most: usize, word: &[u8]) -> Option<u64>
    requires { most ≤ 10 }
    ensures value { result ≡ decimal_of most word.now }
    ensures small { IfSome result (λ number. number < 10 ^ most) }
{
    if word.is_empty() || word.len() > most {
        return None;
    }
    if word.len() > 1 && word[0] == b'0' {
        return None;
    }
    digits_of(word)
}

fn digits_of(digits: &[u8]) -> Option<u64>
    requires { length digits.now ≤ 10 }
    ensures { result ≡ digits_of digits.now }
{
    let mut number = 0;
    for digit in digits {
        if !digit.is_ascii_digit() {
            return None;
        }
        number = number * 10 + u64::from(*digit - b'0');
    }
    Some(number)
}

/// The second from which a label holds, and a blank. For most labels it is 0.
#[inline(always)]
pub(crate) fn start_field(bytes: &[u8]) -> Option<(Time, &[u8])>
    ensures { Finds (λ x. (x.0, x.1.now)) result (field_at number_of 32 bytes.now) }
{
    if let Some((front, rest)) = bytes.split_first_chunk::<2>() {
        if let [b'0', b' '] = *front {
            return Some((0, rest));
        }
    }
    second_field(b' ', bytes)
}

/// The second until which a label holds, and a blank. For most labels it is the end of a day.
#[inline(always)]
pub(crate) fn end_field(bytes: &[u8]) -> Option<(Time, &[u8])>
    ensures { Finds (λ x. (x.0, x.1.now)) result (field_at number_of 32 bytes.now) }
{
    if let Some(rest) = behind(b"86400 ", bytes) {
        return Some((86400, rest));
    }
    second_field(b' ', bytes)
}

/// A number before a blank or a line feed. Most seconds of a day have five digits, so these are tried first.
#[inline(always)]
pub(crate) fn second_field(last: u8, bytes: &[u8]) -> Option<(Time, &[u8])>
    requires { IsSeparator last }
    ensures { Finds (λ x. (x.0, x.1.now)) result (field_at number_of last bytes.now) }
{
    if let Some(found) = five_field(last, bytes) {
        return Some(found);
    }
    short_field(last, bytes)
}

// A number of five digits.
#[inline(always)]
fn five_field(last: u8, bytes: &[u8]) -> Option<(Time, &[u8])>
    requires { IsSeparator last }
    ensures { IfSome result (λ x. field_at number_of last bytes.now ≡ Some (x.0, x.1.now)) }
{
    let front = bytes.first_chunk::<6>()?;
    if front[5] == last && front[0] != b'0' {
        let number = worth_of_five(front);
        if number < NO {
            return Some((number as Time, &bytes[6..]));
        }
    }
    None
}

// What the first five bytes are worth together.
#[inline(always)]
fn worth_of_five(front: &[u8; 6]) -> u64
    ensures { result ≡ worth_of_five front.now }
{
    worth(front[0]) * 10_000
        + worth(front[1]) * 1_000
        + worth(front[2]) * 100
        + worth(front[3]) * 10
        + worth(front[4])
}

// The same where the number may have any digits. Most have four, and most of a week six. They take no loop.
#[inline(always)]
fn short_field(last: u8, bytes: &[u8]) -> Option<(Time, &[u8])>
    requires { IsSeparator last }
    ensures { Finds (λ x. (x.0, x.1.now)) result (field_at number_of last bytes.now) }
{
    if let Some(front) = bytes.first_chunk::<7>() {
        let (number, end) = front_number(last, front);
        if front[0] != b'0' && number < NO && front[end] == last {
            return Some((number as Time, &bytes[end + 1..]));
        }
    }
    number_field(last, bytes)
}

// What the first four bytes are worth together where the last byte is behind them, else the first five if it is behind those,
// else the first six, and how many they are.
#[inline(always)]
fn front_number(last: u8, front: &[u8; 7]) -> (u64, usize)
    ensures number { result ≡ front_number last front.now }
    ensures few { result.1 < 7 }
{
    let four = worth(front[0]) * 1_000
        + worth(front[1]) * 100
        + worth(front[2]) * 10
        + worth(front[3]);
    if front[4] == last {
        return (four, 4);
    }
    let five = four * 10 + worth(front[4]);
    if front[5] == last {
        (five, 5)
    } else {
        (five * 10 + worth(front[5]), 6)
    }
}

// What a byte is worth as a digit.
#[inline(always)]
fn worth(byte: u8) -> u64
    ensures value { result ≡ worth byte }
    ensures small { result ≤ NO }
{
    WORTHS[usize::from(byte)]
}

/// A number before a blank or a line feed. It and the byte behind it are at most eight bytes.
#[inline(always)]
pub(crate) fn number_field(last: u8, bytes: &[u8]) -> Option<(Time, &[u8])>
    requires { IsSeparator last }
    ensures { Finds (λ x. (x.0, x.1.now)) result (field_at number_of last bytes.now) }
{
    match bytes.first_chunk::<8>() {
        Some(front) => number_in(last, front, bytes),
        None => number_near_end(last, bytes),
    }
}

// The same where fewer than eight bytes are left.
#[inline(never)]
fn number_near_end(last: u8, bytes: &[u8]) -> Option<(Time, &[u8])>
    requires last { IsSeparator last }
    requires few { length bytes.now < 8 }
    ensures { Finds (λ x. (x.0, x.1.now)) result (field_at number_of last bytes.now) }
{
    let mut front = [0; 8];
    front[..bytes.len()].copy_from_slice(bytes);
    number_in(last, &front, bytes)
}

// The number at the front of the bytes, read in one pass over the first eight, which have zeros behind the end.
#[inline(always)]
fn number_in<'a>(last: u8, front: &[u8; 8], bytes: &'a [u8]) -> Option<(Time, &'a [u8])>
    requires last { IsSeparator last }
    requires front { IsFrontOf front.now bytes.now }
    ensures { Finds (λ x. (x.0, x.1.now)) result (field_at number_of last bytes.now) }
{
    if front[0] == b'0' {
        if front[1] == last {
            return Some((0, &bytes[2..]));
        }
        return None;
    }
    let mut number = 0;
    for place in 0..MOST_DIGITS + 1 {
        let byte = front[place];
        if !byte.is_ascii_digit() {
            if byte == last && place > 0 {
                return Some((number, &bytes[place + 1..]));
            }
            return None;
        }
        number = number * 10 + u32::from(byte - b'0');
    }
    None
}

pub(crate) fn count_field(last: u8, bytes: &[u8]) -> Option<(u64, &[u8])>
    ensures { Finds (λ x. (x.0, x.1.now)) result (field_at count_of last bytes.now) }
{
    let (word, rest) = word_at(last, bytes)?;
    let count = decimal_of(10, word)?;
    Some((count, rest))
}

// A count that is not 0.
pub(crate) fn some_count_field(last: u8, bytes: &[u8]) -> Option<(u64, &[u8])>
    ensures { Finds (λ x. (x.0, x.1.now)) result (field_at some_count_of last bytes.now) }
{
    let (count, rest) = count_field(last, bytes)?;
    if count == 0 {
        return None;
    }
    Some((count, rest))
}

// How many entries a batch has, from 2 to 6.
pub(crate) fn batch_count_field(last: u8, bytes: &[u8]) -> Option<(u64, &[u8])>
    ensures { Finds (λ x. (x.0, x.1.now)) result (field_at batch_count_of last bytes.now) }
{
    let (count, rest) = count_field(last, bytes)?;
    if count < 2 || count > 6 {
        return None;
    }
    Some((count, rest))
}

// The total of a batch, of 32 bits.
pub(crate) fn total_field(last: u8, bytes: &[u8]) -> Option<(u32, &[u8])>
    ensures { Finds (λ x. (x.0, x.1.now)) result (field_at total_of last bytes.now) }
{
    let (total, rest) = count_field(last, bytes)?;
    let total = u32::try_from(total).ok()?;
    Some((total, rest))
}

// The number of a step, from 1 to 256.
pub(crate) fn step_number_field(last: u8, bytes: &[u8]) -> Option<(u32, &[u8])>
    requires { IsSeparator last }
    ensures { Finds (λ x. (x.0, x.1.now)) result (field_at step_number_of last bytes.now) }
{
    let (number, rest) = number_field(last, bytes)?;
    if number < 1 || number > 256 {
        return None;
    }
    Some((number, rest))
}

pub(crate) fn name_field(last: u8, bytes: &[u8]) -> Option<(Name, &[u8])>
    ensures { Finds (λ x. (x.0, x.1.now)) result (field_at name_of last bytes.now) }
{
    let (word, rest) = word_at(last, bytes)?;
    let name = Name::read(word)?;
    Some((name, rest))
}

pub(crate) fn kind_field(last: u8, bytes: &[u8]) -> Option<(FlightKind, &[u8])>
    ensures { Finds (λ x. (x.0, x.1.now)) result (field_at kind_of last bytes.now) }
{
    let (word, rest) = word_at(last, bytes)?;
    let kind = kind_of(word)?;
    Some((kind, rest))
}

#[tactic(auto, unfolding(crate::specs::Fields::kind_of))]
fn kind_of(word: &[u8]) -> Option<FlightKind>
    ensures { result ≡ kind_of word.now }
{
    if word == b"filed".as_slice() {
        Some(FlightKind::Filed)
    } else if word == b"arrival".as_slice() {
        Some(FlightKind::Arrival)
    } else if word == b"departure".as_slice() {
        Some(FlightKind::Departure)
    } else {
        None
    }
}

pub(crate) fn class_field<'a>(
    airport: &Airport,
    last: u8,
    bytes: &'a [u8],
) -> Option<(Class, &'a [u8])>
    ensures { Finds (λ x. (x.0, x.1.now)) result (field_at (class_of_word airport.now) last bytes.now) }
{
    let (word, rest) = word_at(last, bytes)?;
    let name = Name::read(word)?;
    let class = airport.class_named(&name)?;
    Some((class, rest))
}

pub(crate) fn segment_field<'a>(
    airport: &Airport,
    last: u8,
    bytes: &'a [u8],
) -> Option<(Segment, &'a [u8])>
    ensures { Finds (λ x. (x.0, x.1.now)) result (field_at (segment_of_word airport.now) last bytes.now) }
{
    let (word, rest) = word_at(last, bytes)?;
    let name = Name::read(word)?;
    let segment = airport.segment_named(&name)?;
    Some((segment, rest))
}
