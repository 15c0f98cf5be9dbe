//! The engine for callers in C: handles, answers and the texts of replies, and what the tools tell of a run.
#![tactic(auto)]

mod asked;
mod calls;
mod loose;
mod why;

ghost use Rattle.std.specs.Prelude.{◌≡◌, Option, length};
ghost use types.Logic.{sem};
ghost use Rattle.engine_texts.specs.Session.{SessionState};
ghost use Rattle.taxi_library.specs.Open.{holds, IsOpen, Lends};
ghost use Rattle.taxi_library.specs.Calls.{IsMade, IsWhy, IsRule, IsAnswer, IsCopied, IsObjectAsked, IsPlanAsked, AreFiguresAsked, IsCheckpointAsked, IsExplanationAsked};

use asked::{checkpoint_told, explanation_told, figures_told, object_told, plan_told};
use calls::{answered, opened, replied, reply_copied, rule_copied, told, why_refused};
use engine_texts::Session;
use loose::Loose;
use std::alloc::Global;
use why::{Why, number_of};

/// What C knows of an engine: its address. The byte is never read.
#[repr(C)]
pub struct Rusboqan {
    byte: u8,
}

/// The version of the library: 10,000 for each major one, 100 for each minor one, and the patch.
#[unsafe(no_mangle)]
pub extern "C" fn rusboqan_version() -> u32
    ensures { result ≡ 10300 }
{
    10300
}

/// Opens an engine over the airport of a file's bytes, and writes its handle. False where the bytes are no airport or too many, or
/// memory runs out; then no handle is written.
#[unsafe(no_mangle)]
pub extern "C" fn rusboqan_open(alloc: Global, airport: &[u8], out: &mut *mut Rusboqan) -> bool
    ensures* { ∃ₛ (λ (engine : Option SessionState). sem 𝓛 (IsOpen out.new engine) ∗ ⌜ IsMade airport.now result out.old out.new engine ⌝) }
{
    match opened(alloc, airport) {
        Some(engine) => {
            *out = engine.given();
            true
        }
        None => false,
    }
}

/// Why no engine is opened over these bytes: 1 where a record breaks a rule, whose number is written; 2 where they are more
/// than 4,194,304; 0 where nothing is wrong with them, and 3 where memory runs out.
#[unsafe(no_mangle)]
pub extern "C" fn rusboqan_why(alloc: Global, airport: &[u8], at: &mut u32) -> u8
    ensures { IsWhy airport.now result at.old at.new }
{
    let why = why_refused(alloc, airport);
    if let Some(Why::Refused { at: record, .. }) = why {
        *at = record;
    }
    number_of(why)
}

/// Copies the word of the rule that the first bad record of these bytes breaks, where it fits, and gives its length. 0 where no record is known
/// to break one.
#[unsafe(no_mangle)]
pub extern "C" fn rusboqan_rule(alloc: Global, airport: &[u8], room: &mut [u8]) -> usize
    ensures { IsRule airport.now result room.old room.new }
{
    rule_copied(alloc, airport, room)
}

/// Answers the command of a line, and gives the length of the reply; 0 where the line holds no command.
#[unsafe(no_mangle)]
pub unsafe extern "C" fn rusboqan_answer(at: *mut Rusboqan, line: &[u8]) -> usize
    ghost held: { SessionState }
    requires* { sem 𝓛 (holds at held) }
    ensures* { ∃ₛ (λ (after : SessionState). sem 𝓛 (holds at after) ∗ ⌜ IsAnswer line.now held after result ⌝) }
{
    answered(&mut *(at as *mut Session), line)
}

/// Lends the text of the last reply: writes where it begins, and gives its length. It can be read until the next call for
/// this engine.
#[unsafe(no_mangle)]
pub unsafe extern "C" fn rusboqan_text(at: *mut Rusboqan, text: &mut *const u8) -> usize
    ghost held: { SessionState }
    requires* { sem 𝓛 (holds at held) }
    ensures* { Lends 𝓛 at held text.new held.engine.reply ∗ ⌜ result ≡ length held.engine.reply ⌝ }
{
    let reply = replied(&*(at as *mut Session));
    *text = reply.as_ptr();
    reply.len()
}

/// Copies the text of the last reply, where it fits, and gives its length. Where it doesn't fit the room stays as it is.
#[unsafe(no_mangle)]
pub unsafe extern "C" fn rusboqan_reply(at: *mut Rusboqan, room: &mut [u8]) -> usize
    ghost held: { SessionState }
    requires* { sem 𝓛 (holds at held) }
    ensures* { sem 𝓛 (holds at held) ∗ ⌜ IsCopied held.engine.reply result room.old room.new ⌝ }
{
    reply_copied(&mut *(at as *mut Session), room)
}

/// Tells of the last command and its reply as a JSON object, where the command's line has this number. Gives the length of the text, which
/// `rusboqan_told` lends, or 2^64 - 1 where memory runs out.
#[unsafe(no_mangle)]
pub unsafe extern "C" fn rusboqan_json(at: *mut Rusboqan, line: u64) -> usize
    ghost held: { SessionState }
    requires* { sem 𝓛 (holds at held) }
    ensures* { ∃ₛ (λ (after : SessionState). sem 𝓛 (holds at after) ∗ ⌜ IsObjectAsked line held after result ⌝) }
{
    object_told(&mut *(at as *mut Session), line)
}

/// Tells of what is in force as a table, with civil times where a start is given. Gives the length of the text, 2^64 - 1 where memory runs out,
/// or 2^64 - 2 where the start is no civil time.
#[unsafe(no_mangle)]
pub unsafe extern "C" fn rusboqan_plan(at: *mut Rusboqan, start: &[u8]) -> usize
    ghost held: { SessionState }
    requires* { sem 𝓛 (holds at held) }
    ensures* { ∃ₛ (λ (after : SessionState). sem 𝓛 (holds at after) ∗ ⌜ IsPlanAsked start.now held after result ⌝) }
{
    plan_told(&mut *(at as *mut Session), start)
}

/// Tells the figures of the commands that were answered. Gives the length of the text, or 2^64 - 1 where memory runs out.
#[unsafe(no_mangle)]
pub unsafe extern "C" fn rusboqan_figures(at: *mut Rusboqan) -> usize
    ghost held: { SessionState }
    requires* { sem 𝓛 (holds at held) }
    ensures* { ∃ₛ (λ (after : SessionState). sem 𝓛 (holds at after) ∗ ⌜ AreFiguresAsked held after result ⌝) }
{
    figures_told(&mut *(at as *mut Session))
}

/// Tells of what is in force as a command file. Gives the length of the text, or 2^64 - 1 where memory runs out.
#[unsafe(no_mangle)]
pub unsafe extern "C" fn rusboqan_checkpoint(at: *mut Rusboqan) -> usize
    ghost held: { SessionState }
    requires* { sem 𝓛 (holds at held) }
    ensures* { ∃ₛ (λ (after : SessionState). sem 𝓛 (holds at after) ∗ ⌜ IsCheckpointAsked held after result ⌝) }
{
    checkpoint_told(&mut *(at as *mut Session))
}

/// Tells why a line would be answered as it would, which is not done. Gives the length of the text, or 2^64 - 1 where memory runs out.
#[unsafe(no_mangle)]
pub unsafe extern "C" fn rusboqan_explain(at: *mut Rusboqan, line: &[u8]) -> usize
    ghost held: { SessionState }
    requires* { sem 𝓛 (holds at held) }
    ensures* { ∃ₛ (λ (after : SessionState). sem 𝓛 (holds at after) ∗ ⌜ IsExplanationAsked line.now held after result ⌝) }
{
    explanation_told(&mut *(at as *mut Session), line)
}

/// Lends the text that was told last: writes where it begins, and gives its length. It can be read until the next call for this engine.
#[unsafe(no_mangle)]
pub unsafe extern "C" fn rusboqan_told(at: *mut Rusboqan, text: &mut *const u8) -> usize
    ghost held: { SessionState }
    requires* { sem 𝓛 (holds at held) }
    ensures* { Lends 𝓛 at held text.new held.told ∗ ⌜ result ≡ length held.told ⌝ }
{
    let told = told(&*(at as *mut Session));
    *text = told.as_ptr();
    told.len()
}

/// Gives an engine's memory back. The handle is worth nothing from then on.
#[unsafe(no_mangle)]
pub unsafe extern "C" fn rusboqan_close(alloc: Global, at: *mut Rusboqan)
    ghost held: { SessionState }
    requires* { sem 𝓛 (holds at held) }
{
    ended(Loose {
        at: at as *mut Session,
        alloc,
    })
}

fn ended(engine: Loose<Session, Global>) {
    let _whole = engine.into_box();
}
