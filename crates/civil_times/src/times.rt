//! Civil times with their offsets from UTC.
ghost use Rattle.std.specs.Prelude.{◌≡◌, ◌<◌, ◌≤◌, ℤ, pos, neg_ℤ, IfSome};
ghost use Rattle.jiff.specs.Words.{IsBetween, IsEpochDay};
ghost use Rattle.civil_times.specs.Marks.{is_at, digit_at, pair_at};
ghost use Rattle.civil_times.specs.Times.{is_utc, day_number, day_of, seconds_of, time_of, has_marks, offset_seconds, offset_size, offset_of, second_at, second_of, IsSecond};

use jiff::civil::Date;

/// The second of a text of the form `YYYY-MM-DDThh:mm:ss` and then `Z`, `+hh:mm` or `-hh:mm`, counted from
/// 1970-01-01T00:00:00Z; none of any other text.
#[tactic(auto, unfolding(crate::specs::Times::second_of))]
pub fn second_of(text: &[u8]) -> Option<i64>
    ensures value { result ≡ second_of text.now }
    ensures range { IfSome result IsSecond }
{
    if !has_marks(text) {
        return None;
    }
    let day = day_of(text)?;
    let time = time_of(text)?;
    let offset = offset_of(text)?;
    Some(second_at(day, time, offset))
}

// The day's number times 86,400, and the time of day, less the offset.
fn second_at(day: i32, time: u32, offset: i32) -> i64
    requires day { IsEpochDay day }
    requires time { time < 86400 }
    requires offset { IsBetween (neg_ℤ (pos 53940)) (pos 53940) offset }
    ensures value { result ≡ second_at day time offset }
    ensures range { IsSecond result }
{
    i64::from(day) * 86_400 + i64::from(time) - i64::from(offset)
}

fn has_marks(text: &[u8]) -> bool
    ensures { result ≡ has_marks text.now }
{
    is_at(b'-', text, 4)
        && is_at(b'-', text, 7)
        && is_at(b'T', text, 10)
        && is_at(b':', text, 13)
        && is_at(b':', text, 16)
}

pub(crate) fn day_of(text: &[u8]) -> Option<i32>
    ensures value { result ≡ day_of text.now }
    ensures range { IfSome result IsEpochDay }
{
    let century = pair_at(text, 0)?;
    let year = pair_at(text, 2)?;
    let month = pair_at(text, 5)?;
    let day = pair_at(text, 8)?;
    day_number(100 * century + year, month, day)
}

fn day_number(year: u32, month: u32, day: u32) -> Option<i32>
    requires year { year < 10000 }
    requires month { month < 100 }
    requires day { day < 100 }
    ensures value { result ≡ day_number year month day }
    ensures range { IfSome result IsEpochDay }
{
    if year < 1970 || year > 2999 {
        return None;
    }
    match Date::new(year as i16, month as i8, day as i8) {
        Ok(date) => Some(date.to_plain().to_unix_epoch_day()),
        Err(_) => None,
    }
}

pub(crate) fn time_of(text: &[u8]) -> Option<u32>
    ensures value { result ≡ time_of text.now }
    ensures range { IfSome result (λ time. time < 86400) }
{
    let hours = pair_at(text, 11)?;
    let minutes = pair_at(text, 14)?;
    let seconds = pair_at(text, 17)?;
    seconds_of(hours, minutes, seconds)
}

fn seconds_of(hours: u32, minutes: u32, seconds: u32) -> Option<u32>
    ensures value { result ≡ seconds_of hours minutes seconds }
    ensures range { IfSome result (λ time. time < 86400) }
{
    if hours <= 23 && minutes <= 59 && seconds <= 59 {
        Some(3600 * hours + 60 * minutes + seconds)
    } else {
        None
    }
}

// The offset in seconds, where one stands from place 19 on.
fn offset_of(text: &[u8]) -> Option<i32>
    ensures value { result ≡ offset_of text.now }
    ensures range { IfSome result (IsBetween (neg_ℤ (pos 53940)) (pos 53940)) }
{
    if is_utc(text) {
        Some(0)
    } else if is_at(b'+', text, 19) {
        let size = offset_size(text)?;
        Some(size as i32)
    } else if is_at(b'-', text, 19) {
        let size = offset_size(text)?;
        Some(-(size as i32))
    } else {
        None
    }
}

fn is_utc(text: &[u8]) -> bool
    ensures { result ≡ is_utc text.now }
{
    text.len() == 20 && is_at(b'Z', text, 19)
}

fn offset_size(text: &[u8]) -> Option<u32>
    ensures value { result ≡ offset_size text.now }
    ensures range { IfSome result (λ size. size ≤ 53940) }
{
    if text.len() != 25 || !is_at(b':', text, 22) {
        return None;
    }
    let hours = pair_at(text, 20)?;
    let minutes = pair_at(text, 23)?;
    offset_seconds(hours, minutes)
}

fn offset_seconds(hours: u32, minutes: u32) -> Option<u32>
    ensures value { result ≡ offset_seconds hours minutes }
    ensures range { IfSome result (λ size. size ≤ 53940) }
{
    if hours <= 14 && minutes <= 59 {
        Some(3600 * hours + 60 * minutes)
    } else {
        None
    }
}

// The number that two digits write, the first of which stands at the place.
pub(crate) fn pair_at(text: &[u8], place: usize) -> Option<u32>
    requires { place < 100 }
    ensures value { result ≡ pair_at text.now place }
    ensures range { IfSome result (λ pair. pair < 100) }
{
    let tens = digit_at(text, place)?;
    let ones = digit_at(text, place + 1)?;
    Some(10 * tens + ones)
}

fn digit_at(text: &[u8], place: usize) -> Option<u32>
    ensures value { result ≡ digit_at text.now place }
    ensures range { IfSome result (λ digit. digit < 10) }
{
    let byte = *text.get(place)?;
    if byte.is_ascii_digit() {
        Some(u32::from(byte - b'0'))
    } else {
        None
    }
}

fn is_at(byte: u8, text: &[u8], place: usize) -> bool
    ensures { result ≡ is_at byte text.now place }
{
    match text.get(place) {
        Some(found) => *found == byte,
        None => false,
    }
}
