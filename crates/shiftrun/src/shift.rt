// The top call: from words and bytes to bytes and a status.
ghost use Rattle.std.specs.Prelude.{◌≡◌, ◌↔◌, IsTrue, ℕ, List, Some, None, map, string_bytes};
ghost use Rattle.sx_script.specs.Reading.{script_read};
ghost use Rattle.shiftrun.specs.Outputs.{IsStep};
ghost use Rattle.shiftrun.specs.Endings.{Ends, EndsWith, StepEnds, PutsOut, PutsRun};

use crate::run::{Run, run_script};
use crate::status::Status;
use std::alloc::{AllocError, Global};
use std::mem;
use sx_core::Core;
use sx_io::{ReadFault, Sink, Source, WriteFault, read_all, write_all};
use sx_script::{Script, ScriptFault, parse_script};

/// A word of the command line.
pub type Word = String;

/// How many bytes a script may have.
const MOST_BYTES: u64 = 1_048_576;

/// Does what the words say, and answers the exit status: `step` reads a script from the source, runs it and puts the
/// report out. What is printed at each status stands in `docs/FORMATS.md`. `kept` is the machine whose report was put out.
pub fn shift<S: Source, K: Sink>(
    alloc: Global,
    words: &[Word],
    source: &mut S,
    sink: &mut K,
    kept: &mut Option<Core>,
) -> u8
    requires { kept.old ≡ None }
    ensures { EndsWith (map string_bytes words.now) (record { left = S.left source.old; unread = S.faults source.old; written = K.written sink.old; unwritten = K.faults sink.old }) (record { left = S.left source.new; unread = S.faults source.new; written = K.written sink.new; unwritten = K.faults sink.new }) kept.new result }
{
    shift_alone(alloc, words, source, sink, kept)
}

/// The same, for the words of commands that run by one thread, as all do today.
pub fn shift_alone<S: Source, K: Sink>(
    alloc: Global,
    words: &[Word],
    source: &mut S,
    sink: &mut K,
    kept: &mut Option<Core>,
) -> u8
    requires { kept.old ≡ None }
    ensures { EndsWith (map string_bytes words.now) (record { left = S.left source.old; unread = S.faults source.old; written = K.written sink.old; unwritten = K.faults sink.old }) (record { left = S.left source.new; unread = S.faults source.new; written = K.written sink.new; unwritten = K.faults sink.new }) kept.new result }
{
    command(alloc, words, source, sink, kept).code()
}

// Does what the words say.
fn command<S: Source, K: Sink>(
    alloc: Global,
    words: &[Word],
    source: &mut S,
    sink: &mut K,
    kept: &mut Option<Core>,
) -> Status
    requires { kept.old ≡ None }
    ensures { Ends (map string_bytes words.now) (record { left = S.left source.old; unread = S.faults source.old; written = K.written sink.old; unwritten = K.faults sink.old }) (record { left = S.left source.new; unread = S.faults source.new; written = K.written sink.new; unwritten = K.faults sink.new }) kept.new result }
{
    if !is_step(words) {
        return put(sink, b"fault words\n", Status::Words);
    }
    match read_all(alloc, source, MOST_BYTES) {
        Ok(bytes) => step(alloc, bytes.as_slice(), sink, kept),
        Err(ReadFault::TooLong) => put(sink, b"fault 0 toolong\n", Status::Refused),
        Err(ReadFault::Failed) => Status::Unread,
        Err(ReadFault::Memory) => Status::Memory,
    }
}

// Whether the words are the one command that is built.
fn is_step(words: &[Word]) -> bool
    ensures { IsTrue result ↔ IsStep (map string_bytes words.now) }
{
    words.len() == 1 && words[0].as_str() == "step"
}

// Runs the script that the bytes are, and puts its report out.
fn step<K: Sink>(alloc: Global, bytes: &[u8], sink: &mut K, kept: &mut Option<Core>) -> Status
    requires { kept.old ≡ None }
    ensures { StepEnds bytes.now (K.written sink.old) (K.written sink.new) (K.faults sink.old) (K.faults sink.new) kept.new result }
{
    match parse_script(alloc, bytes) {
        Ok(script) => {
            let status = run_read(alloc, &script, sink, kept);
            // A process runs one script: the lines go with its memory, and needn't be given back one by one.
            mem::forget(script);
            status
        }
        Err(ScriptFault::Memory) => Status::Memory,
        Err(ScriptFault::Bad { .. }) => put(sink, b"fault 0 later\n", Status::Refused),
    }
}

// Runs a script that was read, and puts its report out.
fn run_read<K: Sink>(
    alloc: Global,
    script: &Script,
    sink: &mut K,
    kept: &mut Option<Core>,
) -> Status
    requires { kept.old ≡ None }
    ensures { (bytes : List ℕ) → script_read bytes ≡ Some script.now → StepEnds bytes (K.written sink.old) (K.written sink.new) (K.faults sink.old) (K.faults sink.new) kept.new result }
{
    match run_script(alloc, script) {
        Ok(run) => put_run(run, sink, kept),
        Err(AllocError) => Status::Memory,
    }
}

// Puts a run's report out, and keeps its machine where all of it was taken.
fn put_run<K: Sink>(run: Run, sink: &mut K, kept: &mut Option<Core>) -> Status
    requires { kept.old ≡ None }
    ensures { PutsRun run.is_full run.core run.text (K.written sink.old) (K.written sink.new) (K.faults sink.old) (K.faults sink.new) kept.new result }
{
    match write_all(sink, run.text.as_slice()) {
        Ok(()) => {
            let status = run.status();
            *kept = Some(run.core);
            status
        }
        Err(_) => Status::Unwritten,
    }
}

// Puts a text out, and answers the status that this has where all of it was taken.
fn put<K: Sink>(sink: &mut K, text: &[u8], status: Status) -> Status
    ensures { PutsOut (K.written sink.old) (K.written sink.new) (K.faults sink.old) (K.faults sink.new) text.now status result }
{
    match write_all(sink, text) {
        Ok(()) => status,
        Err(WriteFault { .. }) => Status::Unwritten,
    }
}
