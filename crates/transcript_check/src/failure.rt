//! Why a block of a transcript fails.
ghost use Rattle.std.specs.Prelude.{◌≡◌, ◌≤◌, length};
ghost use Rattle.transcript_check.specs.Words.{rule_word, failure_word};

use replies::Rule;

/// Why a block of a transcript fails.
#[derive(Clone, Copy, Debug, Drop)]
pub enum Failure {
    /// No block can be read where one is due, or the last line isn't there.
    Form,
    /// The first rule that the block breaks.
    Rule(Rule),
}

impl Failure {
    /// The word that is told for it.
    pub fn word(self) -> &'static [u8]
        ensures word { result.now ≡ failure_word self }
        ensures short { length result.now ≤ 6 }
    {
        match self {
            Failure::Form => b"form",
            Failure::Rule(rule) => rule_word(rule),
        }
    }
}

fn rule_word(rule: Rule) -> &'static [u8]
    ensures word { result.now ≡ rule_word rule }
    ensures short { length result.now ≤ 6 }
{
    match rule {
        Rule::Reply => b"reply",
        Rule::Walk => b"walk",
        Rule::Rows => b"rows",
        Rule::Start => b"start",
        Rule::Step => b"step",
        Rule::Target => b"target",
    }
}
