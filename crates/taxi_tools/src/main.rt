//! The program of tools: what follows from a run of the router, for planners and programs.
#![tactic(auto)]

ghost use Rattle.std.specs.Prelude.{◌≡◌, ℕ, List, IfErr};
ghost use Rattle.std.specs.IoError.{error_kind};
ghost use Rattle.std.specs.Process.{exit_status};
ghost use Rattle.command_run.specs.Pace.{commands_left};
ghost use Rattle.program_files.specs.Call.{call_of};
ghost use Rattle.program_files.specs.Exit.{number_of};
ghost use Rattle.program_words.specs.Given.{words_given};
ghost use Rattle.tool_words.specs.Verb.{IsNamed, asked_by};
ghost use Rattle.taxi_tools.specs.Exit.{KeepsPromises};

mod airport_tools;
mod explanations;
mod object_teller;
mod objects;
mod reply_counter;
mod run_tools;
pub mod top;

use program_files::{Status, exit_code};
use program_words::words_after_name;
use std::alloc::Global;
use std::env::Args;
use std::io::ErrorKind;
use std::process::ExitCode;
use std::{env, io};
use taxi_io::{FileShelf, OutputSink, Shelf, Sink};
use top::tools;

// Makes the call with the words that the machine gave, and ends with the number of its status. It keeps every promise of `tools`.
fn call<S: Shelf, K: Sink>(
    alloc: Global,
    given: io::Result<Args>,
    shelf: &mut S,
    out: &mut K,
) -> ExitCode
    requires known { (name : List ℕ) → IsNamed (asked_by (words_given given)) name → S.knows shelf.old name }
    ensures promises { (status : Status) × (exit_status result ≡ number_of status) × KeepsPromises (call_of S.files S.faults S.given K.faults K.written (shelf.old, shelf.new) (out.old, out.new)) (asked_by (words_given given))
        (λ names. commands_left (S.files shelf.old) names (S.begun shelf.new) (S.rest shelf.new)) (S.tried shelf.old, S.tried shelf.new) (shelf.new ≡ shelf.old) status }
    ensures memory { IfErr given (λ error. error_kind error ≡ ErrorKind.OutOfMemory → exit_status result ≡ number_of Status.Memory) }
{
    match words_after_name(alloc, given) {
        Ok(words) => exit_code(tools(alloc, words.as_slice(), shelf, out)),
        Err(_) => exit_code(Status::Memory),
    }
}

fn main(rt: HostRuntime) -> ExitCode {
    let mut shelf = FileShelf::new(&rt);
    let mut out = OutputSink::new(io::writer(&rt));
    call(rt.alloc(), env::args(&rt), &mut shelf, &mut out)
}
