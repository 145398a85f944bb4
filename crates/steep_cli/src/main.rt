//! The program: hands the real streams, the folders below the current one and its words to the checker.
//!
//! It prints the outcome's line to standard error and ends with its status. What is checked and written is the checker's.
#![tactic(auto)]

use ports::{FolderTree, OpenGate, StdSink, StdSource};
use src_text::NoMemory;
use std::alloc::Global;
use std::process::ExitCode;
use std::{env, io};
use steep_run::{Outcome, Part, run};

fn main(rt: HostRuntime) -> io::Result<ExitCode> {
    let alloc = rt.alloc();
    let mut words = Vec::new(alloc);
    let Ok(args) = env::args(&rt) else {
        // Words that aren't UTF-8 are none that the program knows.
        return told(&rt, alloc, Outcome::Unbuilt(Part::Words));
    };
    for word in args.skip(1) {
        if words.push(word).is_err() {
            return told(&rt, alloc, Outcome::NoMemory);
        }
    }
    let mut source = StdSource::new(rt.reader());
    let mut sink = StdSink::new(io::writer(&rt));
    let mut tree = FolderTree::new(rt.clone()?);
    let outcome = run(
        &rt,
        alloc,
        &words,
        &mut source,
        &mut sink,
        &mut tree,
        &OpenGate,
    );
    told(&rt, alloc, outcome)
}

// Prints the outcome's line, if it has one, and gives its status.
fn told(rt: &impl Eprint, alloc: Global, outcome: Outcome) -> io::Result<ExitCode> {
    match outcome.line(alloc) {
        Ok(Some(line)) => {
            let line = line.as_str();
            eprintln!(rt; "{line}")?;
        }
        Ok(None) => {}
        Err(NoMemory) => return told_alone(rt),
    }
    Ok(ExitCode::from(outcome.status()))
}

// What is told where there is no memory for an outcome's line.
fn told_alone(rt: &impl Eprint) -> io::Result<ExitCode> {
    eprintln!(rt; "steep: out of memory")?;
    Ok(ExitCode::from(Outcome::NoMemory.status()))
}

#[cfg(test)]
mod tests;
