ghost use Rattle.std.specs.Prelude.{◌≡◌, ◌<◌, ◌^◌, IfOk, length, ◌-◌, if◌then◌else◌, ◌==◌, [], codes};
ghost use Rattle.src_text.specs.Place.{line_starts};
ghost use Rattle.diagnostics.specs.Lines.{diagnostic_line, severity_word, summary};

use crate::Diagnostic;
use src_text::{LineIndex, Mem, Text};
use std::alloc::Global;

// The word for a severity.
fn severity_name(severity: u8) -> &'static str
    ensures { result.now ≡ severity_word severity }
{
    match severity {
        1 => "error",
        2 => "warning",
        _ => "information",
    }
}

/// The line that is printed of a diagnostic, `PATH:LINE:COLUMN: [SEVERITY] MESSAGE (CODE)` with its line end. Lines count
/// from 1, and columns are UTF-16 units from 0, both of the start. `index` is that of the text in which it was found.
/// The only error is that memory runs out.
#[tactic(auto, unfolding(crate::specs::Lines::diagnostic_line))]
pub fn line_text(
    alloc: Global,
    path: &str,
    text: &str,
    index: &LineIndex,
    d: &Diagnostic,
) -> Mem<Text>
    requires size { length text.now < 2 ^ 32 }
    requires own { index.now ≡ line_starts text.now }
    ensures { IfOk result (λ line. line ≡ diagnostic_line path.now text.now d.now) }
{
    let (line, character) = index.place_of(text, d.span.start);
    let number = u64::from(line) + 1;
    let severity = severity_name(d.severity);
    let message = d.message.as_str();
    let code = d.code.name();
    let line = format!(in alloc; "{path}:{number}:{character}: [{severity}] {message} ({code})\n")?;
    Ok(Text::from_string(line))
}

/// The last line of a report: how many problems it has, and in how many files. The only error is that memory runs out.
#[tactic(auto, unfolding(crate::specs::Lines::summary))]
pub fn summary_text(alloc: Global, problems: u64, files: u64) -> Mem<Text>
    ensures { IfOk result (λ line. line ≡ summary problems files) }
{
    if problems == 0 {
        return Text::from_str(alloc, "No type error detected.\n");
    }
    let problem = plural(problems);
    let file = plural(files);
    let line = format!(in alloc;
        "Detected {problems} problem{problem} from {files} file{file}.\n"
    )?;
    Ok(Text::from_string(line))
}

// The end of a word that has this number.
fn plural(n: u64) -> &'static str
    ensures { result.now ≡ (if n == 1 then [] else codes "s") }
{
    if n == 1 { "" } else { "s" }
}
