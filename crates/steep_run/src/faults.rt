ghost use Rattle.std.specs.Prelude.{◌≡◌};

use diagnostics::Diagnostic;
use src_text::Seq;

/// The diagnostics of a project's two files, each in the order of its text.
#[derive(Debug, Drop)]
pub struct Faults {
    pub ruby: Seq<Diagnostic>,
    pub signature: Seq<Diagnostic>,
}

impl Faults {
    ghost use Rattle.steep_run.specs.Project.{count_of, files_of};

    /// How many diagnostics there are.
    pub fn count(&self) -> u64
        ensures { result ≡ count_of self.now }
    {
        let ruby = self.ruby.as_slice();
        let signature = self.signature.as_slice();
        ruby.len() as u64 + signature.len() as u64
    }

    /// How many files have one.
    pub fn files(&self) -> u64
        ensures { result ≡ files_of self.now }
    {
        let ruby = self.ruby.len().min(1) as u64;
        let signature = self.signature.len().min(1) as u64;
        ruby + signature
    }
}
