//! What words ask for.
ghost use Rattle.std.specs.Prelude.{◌≡◌, ◌<◌, ◌^◌, IfSome, map, string_bytes};
ghost use Rattle.taxi_text.specs.Fields.{number_of};
ghost use Rattle.program_words.specs.Verb.{traffic_in_range, traffic_of, asked_by, asked_of_one, asked_of_two, asked_of_three};
ghost use Rattle.program_words.specs.LentWords.{traffic_as, asked_as};

use crate::traffic::Traffic;
use taxi_text::read_number;

/// What words ask for, with the names of the files.
#[derive(Drop)]
pub enum Verb<'a> {
    Route {
        airport: &'a str,
        commands: &'a str,
    },
    Check {
        airport: &'a str,
        commands: &'a str,
        transcript: &'a str,
    },
    Generate(Traffic),
    Migrate {
        airport: &'a str,
    },
    Import {
        airport: &'a str,
        schedule: &'a str,
    },
}

/// What the words ask for. None for words of no form.
pub fn asked_by(words: &[String]) -> Option<Verb<'_>>
    ensures { asked_as result ≡ asked_by (map string_bytes words.now) }
{
    match words {
        [verb, airport] => asked_of_one(verb.as_str(), airport.as_str()),
        [verb, airport, second] => {
            asked_of_two(verb.as_str(), airport.as_str(), second.as_str())
        }
        [verb, first, second, third] => {
            asked_of_three(
                verb.as_str(),
                first.as_str(),
                second.as_str(),
                third.as_str(),
            )
        }
        _ => None,
    }
}

fn asked_of_one<'a>(verb: &str, airport: &'a str) -> Option<Verb<'a>>
    ensures { asked_as result ≡ asked_of_one verb.now airport.now }
{
    if verb == "migrate" {
        Some(Verb::Migrate { airport })
    } else {
        None
    }
}

fn asked_of_two<'a>(verb: &str, airport: &'a str, second: &'a str) -> Option<Verb<'a>>
    ensures { asked_as result ≡ asked_of_two verb.now airport.now second.now }
{
    if verb == "route" {
        Some(Verb::Route {
            airport,
            commands: second,
        })
    } else if verb == "import" {
        Some(Verb::Import {
            airport,
            schedule: second,
        })
    } else {
        None
    }
}

fn asked_of_three<'a>(
    verb: &str,
    first: &'a str,
    second: &'a str,
    third: &'a str,
) -> Option<Verb<'a>>
    ensures { asked_as result ≡ asked_of_three verb.now first.now second.now third.now }
{
    if verb == "check" {
        Some(Verb::Check {
            airport: first,
            commands: second,
            transcript: third,
        })
    } else if verb == "generate" {
        let traffic = traffic_of(first, second, third)?;
        Some(Verb::Generate(traffic))
    } else {
        None
    }
}

// The traffic of three words. None where a word is no number, or one that is out of its range.
fn traffic_of(number: &str, side: &str, flights: &str) -> Option<Traffic>
    ensures { traffic_as result ≡ traffic_of number.now side.now flights.now }
{
    let number = number_of(number)?;
    let side = number_of(side)?;
    let flights = number_of(flights)?;
    traffic_in_range(number, side, flights)
}

fn number_of(word: &str) -> Option<u32>
    ensures value { result ≡ number_of word.now }
    ensures short { IfSome result (λ number. number < 10 ^ 7) }
{
    read_number(word.as_bytes())
}

fn traffic_in_range(number: u32, side: u32, flights: u32) -> Option<Traffic>
    requires { number < 10 ^ 7 }
    ensures { traffic_as result ≡ traffic_in_range number side flights }
{
    if 2 <= side && side <= 40 && flights <= 2000 {
        Some(Traffic {
            number,
            side,
            flights,
        })
    } else {
        None
    }
}
