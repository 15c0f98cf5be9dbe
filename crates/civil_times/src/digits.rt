//! Numbers in two digits.
ghost use Rattle.std.specs.Prelude.{◌≡◌, ◌<◌, ◌≤ℤ◌, pos};
ghost use Rattle.civil_times.specs.Later.{pair_text, date_text, time_text, civil_date};

use jiff_core::civil::Date;

/// `YYYY-MM-DD`.
pub(crate) fn date_text(date: Date) -> [u8; 10]
    requires { pos 0 ≤ℤ date.year }
    ensures { result ≡ date_text (civil_date date) }
{
    let year = date.year as u32;
    let century = pair_text(year / 100);
    let rest = pair_text(year % 100);
    let month = pair_text(u32::from(date.month));
    let day = pair_text(u32::from(date.day));
    [
        century[0], century[1], rest[0], rest[1], b'-', month[0], month[1], b'-', day[0], day[1],
    ]
}

/// `hh:mm:ss` of a second of the day.
pub(crate) fn time_text(second: u32) -> [u8; 8]
    requires { second < 86400 }
    ensures { result ≡ time_text second }
{
    let hours = pair_text(second / 3600);
    let minutes = pair_text(second / 60 % 60);
    let seconds = pair_text(second % 60);
    [
        hours[0], hours[1], b':', minutes[0], minutes[1], b':', seconds[0], seconds[1],
    ]
}

fn pair_text(number: u32) -> [u8; 2]
    requires { number < 100 }
    ensures { result ≡ pair_text number }
{
    [b'0' + (number / 10) as u8, b'0' + (number % 10) as u8]
}
