ghost use Rattle.std.specs.Prelude.{◌≡◌, ◌<◌, ◌^◌, ◌≤◌, IfOk, length};
ghost use Rattle.steep_run.specs.Project.{report, lines_of};

use crate::faults::Faults;
use crate::project::{Project, RUBY, SIGNATURE};
use diagnostics::{Diagnostic, line_text, summary_text};
use src_text::{Mem, Text, line_index};
use std::alloc::Global;

/// The report of a project's diagnostics.
pub fn report_text(alloc: Global, project: &Project, faults: &Faults) -> Mem<Text>
    requires ruby { length project.now.ruby < 2 ^ 32 }
    requires signature { length project.now.signature < 2 ^ 32 }
    ensures { IfOk result (λ text. text ≡ report project.now faults.now) }
{
    let ruby = faults.ruby.as_slice();
    let signature = faults.signature.as_slice();
    let mut text = lines_text(alloc, RUBY, project.ruby.as_str(), ruby)?;
    let more = lines_text(alloc, SIGNATURE, project.signature.as_str(), signature)?;
    let last = summary_text(alloc, faults.count(), faults.files())?;
    text.push_str(more.as_str())?;
    text.push_str(last.as_str())?;
    Ok(text)
}

fn lines_text(alloc: Global, path: &str, text: &str, diagnostics: &[Diagnostic]) -> Mem<Text>
    requires { length text.now < 2 ^ 32 }
    ensures { IfOk result (λ lines. lines ≡ lines_of path.now text.now diagnostics.now) }
{
    let index = line_index(alloc, text)?;
    let mut lines = Text::new(alloc);
    let mut rest = diagnostics;
    while let [d, more @ ..] = rest {
        let line = line_text(alloc, path, text, &index, d)?;
        lines.push_str(line.as_str())?;
        rest = more;
    }
    Ok(lines)
}
