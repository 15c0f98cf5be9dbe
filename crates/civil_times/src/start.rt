//! When a day starts, and the civil times of its seconds.
ghost use Rattle.std.specs.Prelude.{◌≡◌, ◌↔◌, ◌+ℤ◌, ◌≤◌, pos, IsTrue, IsSome, IfSome, length};
ghost use Rattle.jiff_core.specs.Date.{epoch_day};
ghost use Rattle.civil_times.specs.Later.{year_of, is_start, civil_text};
ghost use Rattle.civil_times.specs.Read.{IsStartDay};

use crate::digits::{date_text, time_text};
use crate::times::{day_of, pair_at, second_of, time_of};
use jiff_core::civil::Date;
use std::marker::Model;
use taxi_text::ShortText;

/// The civil time at which a day starts, of a year before 2999, seen by contracts as its text.
#[derive(Drop)]
pub struct Start {
    text: ShortText,
    // The day's number, 0 being 1970-01-01, and the second of that day.
    day: i32,
    time: u32,
}

impl Model for Start {
    ghost use Rattle.std.specs.Prelude.{ℕ, List};
    ghost use Rattle.civil_times.specs.Read.{IsRead};

    ghost Value = { List ℕ };

    ghost view = { λ s. s.text };

    ghost invariant = { λ s. IsRead s.text s.day s.time };
}

impl Start {
    /// The start that a text names; none where it is no civil time of a year before 2999.
    pub fn read(text: &[u8]) -> Option<Start>
        ensures some { IsSome result ↔ IsTrue (is_start text.now) }
        ensures same { IfSome result (λ start. start ≡ text.now) }
    {
        second_of(text)?;
        let day = day_of(text)?;
        let time = time_of(text)?;
        if year_of(text)? >= 2999 {
            return None;
        }
        Some(Start {
            text: copy_of(text),
            day,
            time,
        })
    }

    /// The civil time so many seconds later, with the same offset.
    pub fn later(&self, seconds: u32) -> ShortText
        requires { seconds ≤ 604800 }
        ensures { result ≡ civil_text self.now seconds }
    {
        let second = self.time + seconds;
        let date = date_after(self.day, second / 86_400);
        let mut text = ShortText::new();
        text.push(&date_text(date));
        text.push(b"T");
        text.push(&time_text(second % 86_400));
        text.push(&self.text.bytes()[19..]);
        text
    }
}

fn year_of(text: &[u8]) -> Option<u32>
    ensures { result ≡ year_of text.now }
{
    let century = pair_at(text, 0)?;
    let year = pair_at(text, 2)?;
    Some(100 * century + year)
}

fn copy_of(text: &[u8]) -> ShortText
    requires { length text.now ≤ 64 }
    ensures { result ≡ text.now }
{
    let mut copy = ShortText::new();
    copy.push(text);
    copy
}

// The date so many days after that of a start.
fn date_after(day: i32, days: u32) -> Date
    requires day { IsStartDay day }
    requires days { days ≤ 8 }
    ensures { epoch_day result ≡ day +ℤ pos days }
{
    Date::from_unix_epoch_day(i64::from(day) + i64::from(days)).unwrap()
}
