ghost use Rattle.std.specs.Prelude.{◌≡◌, ◌+◌, ◌<◌, ◌^◌, length, ◌||◌};
ghost use Rattle.rbs_lexer.specs.Bytes as bytes;
ghost use Rattle.rbs_lexer.specs.Lexing.{start, past, token, gap};

use crate::gaps::has_line_end;
use crate::kind::Kind;
use crate::place::{Place, after};

/// Where a walk over a text stands.
#[derive(Clone, Copy, Debug, PartialEq, Eq)]
pub struct Walk {
    pub place: Place,
    /// Whether a line ended since the last token.
    pub line_ended: bool,
    /// How many bytes are behind.
    pub at: usize,
}

/// At the text's start.
pub fn begin() -> Walk
    ensures { result ≡ start }
{
    Walk {
        place: Place::Plain,
        line_ended: false,
        at: 0,
    }
}

/// Past a token.
pub fn past_token(walk: Walk, kind: Kind, run: &str) -> Walk
    requires { walk.at + length run.now < 2 ^ 64 }
    ensures { result ≡ past walk (token kind run.now) }
{
    Walk {
        place: after(walk.place, kind, run),
        line_ended: false,
        at: walk.at + run.len(),
    }
}

/// Past a gap.
pub fn past_gap(walk: Walk, run: &str) -> Walk
    requires { walk.at + length run.now < 2 ^ 64 }
    ensures { result ≡ past walk (gap run.now) }
{
    Walk {
        place: walk.place,
        line_ended: has_line_end_since(walk, run),
        at: walk.at + run.len(),
    }
}

fn has_line_end_since(walk: Walk, run: &str) -> bool
    ensures { result ≡ (walk.line_ended || bytes.has_line_end run.now) }
{
    walk.line_ended || has_line_end(run.as_bytes())
}
