ghost use Rattle.std.specs.Prelude.{◌≡◌, IfOk, Some};
ghost use Rattle.steep_run.specs.Report.{line_of, limit_name};

use sig_rules::Limit;
use src_text::{Mem, Text};
use std::alloc::Global;

/// A part of the program that isn't built yet.
#[derive(Clone, Copy, Debug, PartialEq, Eq)]
pub enum Part {
    /// The words of the command line.
    Words,
    /// Signatures that aren't small.
    Signature,
    /// Ruby programs that aren't small.
    Ruby,
}

/// What a run answers.
#[derive(Clone, Copy, Debug, PartialEq, Eq)]
pub enum Outcome {
    /// No memory could be had. Nothing is written.
    NoMemory,
    /// The tree failed. Nothing is written.
    TreeFault,
    /// A limit is passed: there are so many of what it counts. Nothing is written.
    TooLarge(Limit, u64),
    /// A part that isn't built is wanted. Nothing is written.
    Unbuilt(Part),
    /// The sink failed or took nothing. A part of the report may be written.
    SinkFault,
    /// The report is written, with so many diagnostics, at least one.
    Found(u64),
    /// The report is written, and there are no diagnostics.
    Clean,
}

impl Outcome {
    ghost use Rattle.steep_run.specs.Report.{status_of};

    /// The status that the program ends with.
    pub fn status(self) -> u8
        ensures { result ≡ status_of self }
    {
        match self {
            Outcome::Clean => 0,
            Outcome::Found(_) => 1,
            Outcome::TreeFault => 4,
            Outcome::SinkFault => 6,
            Outcome::NoMemory => 8,
            Outcome::TooLarge(_, _) => 9,
            Outcome::Unbuilt(_) => 10,
        }
    }

    /// The line for standard error, without its ending, if there is one.
    pub fn line(self, alloc: Global) -> Mem<Option<Text>>
        ensures { IfOk result (λ line. line ≡ line_of self) }
    {
        match self {
            Outcome::Clean | Outcome::Found(_) => Ok(None),
            Outcome::TreeFault => line_alone(alloc, "steep: cannot read the project"),
            Outcome::SinkFault => line_alone(alloc, "steep: cannot write output"),
            Outcome::NoMemory => line_alone(alloc, "steep: out of memory"),
            Outcome::TooLarge(limit, number) => limit_line(alloc, limit, number),
            Outcome::Unbuilt(_) => line_alone(alloc, "steep: not built yet"),
        }
    }
}

fn line_alone(alloc: Global, line: &str) -> Mem<Option<Text>>
    ensures { IfOk result (λ made. made ≡ Some line.now) }
{
    Ok(Some(Text::from_str(alloc, line)?))
}

fn limit_line(alloc: Global, limit: Limit, number: u64) -> Mem<Option<Text>>
    ensures { IfOk result (λ made. made ≡ line_of (Outcome.TooLarge limit number)) }
{
    let name = limit_name(limit);
    let line = format!(in alloc; "steep: limit passed: {name} {number}")?;
    Ok(Some(Text::from_string(line)))
}

// How a limit is named.
fn limit_name(limit: Limit) -> &'static str
    ensures { result.now ≡ limit_name limit }
{
    match limit {
        Limit::File => "File",
        Limit::Files => "Files",
        Limit::Total => "Total",
        Limit::Names => "Names",
        Limit::Methods => "Methods",
    }
}
