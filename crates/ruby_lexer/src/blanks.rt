ghost use Rattle.std.specs.Prelude.{◌≡◌, ◌≤◌, ◌<◌, ◌+◌, ◌^◌, ◌==◌, length, drop, not};
ghost use Rattle.ruby_lexer.specs.Lines as lines;
ghost use Rattle.ruby_lexer.specs.CommentEnds.{EndsBefore};
ghost use Rattle.ruby_lexer.specs.Machine as spec;
ghost use Rattle.ruby_lexer.specs.Answers.{Steps};

use crate::characters::{begins_with_space, behind};
use crate::kind::RubyKind;
use crate::kinds::drops_line_end;
use crate::lines::{
    begins_line, begins_with_dot, blank_len, line_end_len, line_len, long_comment_len,
    whole_line_len,
};
use crate::machine::Machine;
use crate::placing::{behind_line, put, token};
use crate::refusal::RubyAt;
use crate::state::State;
use crate::token::{RubyToken, RubyValue};

/// Behind a line's end of so many bytes from here.
pub fn past_line(state: State, len: usize) -> State
    requires { state.place + len < 2 ^ 32 }
    ensures { result ≡ spec.past_line state len }
{
    State {
        place: behind_line(state.bodies_end, state.place + len),
        bodies_end: None,
        ..state
    }
}

/// Behind a blank.
pub fn past_blank(state: State, rest: &[u8]) -> State
    requires some { 0 < length rest.now }
    requires fits { state.place + length rest.now < 2 ^ 32 }
    ensures { result ≡ spec.past_blank state rest.now }
{
    if begins_with_space(rest) {
        State {
            place: state.place + 1,
            blank: true,
            ..state
        }
    } else {
        State {
            blank: true,
            line_start: true,
            ..past_line(state, blank_len(rest))
        }
    }
}

// Whether the line here ends before the text does.
fn has_line_end(rest: &[u8]) -> bool
    ensures { result ≡ not (lines.line_end_len (drop (lines.line_len rest.now) rest.now) == 0) }
{
    line_end_len(behind(rest, line_len(rest))) != 0
}

/// Behind a comment; with its line's end, where nothing else stands on the line.
pub fn past_comment(state: State, rest: &[u8]) -> State
    requires { state.place + length rest.now < 2 ^ 32 }
    ensures { result ≡ spec.past_comment state rest.now }
{
    if state.line_start && has_line_end(rest) {
        State {
            blank: true,
            ..past_line(state, whole_line_len(rest))
        }
    } else {
        State {
            place: state.place + line_len(rest),
            blank: true,
            ..state
        }
    }
}

// Behind a line's end that is no token.
fn past_dropped(state: State, len: usize) -> State
    requires { state.place + len < 2 ^ 32 }
    ensures { result ≡ spec.past_dropped state len }
{
    State {
        blank: true,
        line_start: true,
        ..past_line(state, len)
    }
}

// Behind a line's end that is a token.
fn past_newline(state: State, token: &RubyToken, len: usize) -> State
    requires { state.place + len < 2 ^ 32 }
    ensures { result ≡ spec.past_newline state token.now len }
{
    State {
        place: behind_line(state.bodies_end, state.place + len),
        bodies_end: None,
        line_start: true,
        ..put(state, token)
    }
}

// Whether the line that begins at the place goes on with the line before.
fn line_begins_with_dot(text: &[u8], place: usize, last_end: usize) -> bool
    requires { EndsBefore last_end text.now }
    ensures { result ≡ lines.begins_with_dot (drop place text.now) }
{
    begins_with_dot(behind(text, place), last_end)
}

// Whether the line's end here is no token.
fn is_dropped(text: &[u8], state: State, len: usize, last_end: usize) -> bool
    requires fits { state.place + len < 2 ^ 32 }
    requires ends { EndsBefore last_end text.now }
    ensures { result ≡ spec.is_dropped text.now state len }
{
    drops_line_end(state.last)
        || line_begins_with_dot(
            text,
            behind_line(state.bodies_end, state.place + len),
            last_end,
        )
}

/// How long the long comment is that begins here, where a line begins here too.
pub fn comment_here(text: &[u8], state: State, rest: &[u8], last_end: usize) -> usize
    requires within { state.place ≤ length text.now }
    requires ends { EndsBefore last_end rest.now }
    ensures value { result ≡ spec.comment_here text.now state rest.now }
    ensures within { result ≤ length rest.now }
{
    if state.line_start && begins_line(text, state.place) {
        long_comment_len(rest, last_end)
    } else {
        0
    }
}

impl Machine {
    /// A line's end of so many bytes.
    #[tactic(auto, unfolding(crate::specs::Machine::ends_line))]
    pub fn ends_line(&mut self, text: &[u8], len: usize, last_end: usize) -> Result<(), RubyAt>
        requires fits { self.old.state.place + len < 2 ^ 32 }
        requires ends { EndsBefore last_end text.now }
        ensures { Steps (spec.ends_line text.now self.old len) result self.new }
    {
        if is_dropped(text, self.state, len, last_end) {
            self.state = past_dropped(self.state, len);
            return Ok(());
        }
        let newline = token(self.state, RubyKind::Newline, RubyValue::Absent, len);
        self.state = past_newline(self.state, &newline, len);
        self.tokens.push(newline)?;
        Ok(())
    }
}
