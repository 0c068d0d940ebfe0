//! Runs a script of clients' requests and a transformation of a table, and prints what came of it.
#![tactic(auto)]

mod end;
mod finish;
mod lines;
mod propagator;
mod run;
mod shift;
mod status;
mod turn;

pub use end::End;
pub use finish::finish;
pub use lines::step_all;
pub use shift::{Word, shift, shift_alone};
use status::Status;
use std::process::ExitCode;
use std::{env, io, mem};
use sx_io::{StdSink, StdSource};

fn main(rt: HostRuntime) -> ExitCode {
    let alloc = rt.alloc();
    match words(&rt) {
        Ok(words) => {
            let mut source = StdSource::new(rt.stdin());
            let mut sink = StdSink::new(rt.stdout());
            let mut kept = None;
            let status = shift(alloc, words.as_slice(), &mut source, &mut sink, &mut kept);
            // The process ends here, and its memory with it: it needn't be given back row by row.
            mem::forget(kept);
            ExitCode::from(status)
        }
        Err(_) => ExitCode::from(Status::Memory.code()),
    }
}

// The words behind the program's name.
fn words(rt: &HostRuntime) -> io::Result<Vec<Word>> {
    let mut words = Vec::new(rt.alloc());
    for word in env::args(rt)?.skip(1) {
        words.push(word)?;
    }
    Ok(words)
}

#[cfg(test)]
mod client_tests;
#[cfg(test)]
mod online_tests;
#[cfg(test)]
mod switch_tests;
#[cfg(test)]
mod tail_tests;
#[cfg(test)]
mod tests;
