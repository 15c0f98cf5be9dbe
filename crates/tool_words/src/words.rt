//! What words ask for.
ghost use Rattle.std.specs.Prelude.{◌≡◌, map, string_bytes};
ghost use Rattle.tool_words.specs.Verb.{asked_by, asked_of_one, asked_of_two, asked_of_three, start_of, command_number, counted_from_one};
ghost use Rattle.tool_words.specs.LentWords.{asked_as};

use civil_times::Start;
use taxi_text::read_number;

/// What is asked of an airport alone.
#[derive(Clone, Copy)]
pub enum AirportTool {
    /// The airport as a graph.
    Graph,
    /// What is odd about it.
    Lint,
}

/// What is asked of a run whose files are read whole.
#[derive(Drop)]
pub enum RunTool {
    /// The plan that it leaves; with civil times, where a start is given.
    Plan { start: Option<Start> },
    /// Its figures.
    Figures,
    /// What it leaves in force as a command file.
    Checkpoint,
}

/// What words ask for, with the names of the files.
#[derive(Drop)]
pub enum Verb<'a> {
    OfAirport {
        airport: &'a str,
        tool: AirportTool,
    },
    OfRun {
        airport: &'a str,
        commands: &'a str,
        tool: RunTool,
    },
    /// Why the reply to one of the commands is as it is. They are counted from 1.
    Explain {
        airport: &'a str,
        commands: &'a str,
        number: u32,
    },
    /// Each reply of a run as a JSON object, as the lines of the commands come.
    Json {
        airport: &'a str,
        commands: &'a str,
    },
}

/// What the words ask for. None for words of no form.
pub fn asked_by(words: &[String]) -> Option<Verb<'_>>
    ensures { asked_as result ≡ asked_by (map string_bytes words.now) }
{
    match words {
        [verb, airport] => asked_of_one(verb.as_str(), airport.as_str()),
        [verb, airport, commands] => {
            asked_of_two(verb.as_str(), airport.as_str(), commands.as_str())
        }
        [verb, airport, commands, third] => asked_of_three(
            verb.as_str(),
            airport.as_str(),
            commands.as_str(),
            third.as_str(),
        ),
        _ => None,
    }
}

fn asked_of_one<'a>(verb: &str, airport: &'a str) -> Option<Verb<'a>>
    ensures { asked_as result ≡ asked_of_one verb.now airport.now }
{
    let tool = match verb {
        "graph" => AirportTool::Graph,
        "lint" => AirportTool::Lint,
        _ => return None,
    };
    Some(Verb::OfAirport { airport, tool })
}

fn asked_of_two<'a>(verb: &str, airport: &'a str, commands: &'a str) -> Option<Verb<'a>>
    ensures { asked_as result ≡ asked_of_two verb.now airport.now commands.now }
{
    let tool = match verb {
        "plan" => RunTool::Plan { start: None },
        "figures" => RunTool::Figures,
        "checkpoint" => RunTool::Checkpoint,
        "json" => return Some(Verb::Json { airport, commands }),
        _ => return None,
    };
    Some(Verb::OfRun {
        airport,
        commands,
        tool,
    })
}

fn asked_of_three<'a>(
    verb: &str,
    airport: &'a str,
    commands: &'a str,
    third: &str,
) -> Option<Verb<'a>>
    ensures { asked_as result ≡ asked_of_three verb.now airport.now commands.now third.now }
{
    let tool = match verb {
        "plan" => RunTool::Plan {
            start: Some(start_of(third)?),
        },
        "explain" => {
            let number = command_number(third)?;
            return Some(Verb::Explain {
                airport,
                commands,
                number,
            });
        }
        _ => return None,
    };
    Some(Verb::OfRun {
        airport,
        commands,
        tool,
    })
}

// The start that a word names.
fn start_of(word: &str) -> Option<Start>
    ensures { result ≡ start_of word.now }
{
    Start::read(word.as_bytes())
}

// The number of a command that a word names.
fn command_number(word: &str) -> Option<u32>
    ensures { result ≡ command_number word.now }
{
    let number = read_number(word.as_bytes())?;
    counted_from_one(number)
}

// A number that counts from 1.
fn counted_from_one(number: u32) -> Option<u32>
    ensures { result ≡ counted_from_one number }
{
    if number == 0 { None } else { Some(number) }
}
