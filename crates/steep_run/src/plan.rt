ghost use Rattle.std.specs.Prelude.{◌≡◌, map, string_bytes};
ghost use Rattle.steep_run.specs.Report.{is_check};

use src_text::Text;

/// What a check is asked to do.
#[derive(Debug, Drop)]
pub struct CheckPlan {
    /// The project's folder; not empty. `.` is the folder that the tree begins in.
    pub root: Text,
    /// How many pieces of work may be done at a time, from 1 to 64.
    pub jobs: u32,
}

/// Whether the words ask for a check, and for nothing else.
pub fn is_check_alone(words: &[String]) -> bool
    ensures { result ≡ is_check (map string_bytes words.now) }
{
    match words {
        [word] => word.as_str() == "check",
        _ => false,
    }
}
