ghost use Rattle.std.specs.Prelude.{◌≡◌, ◌<◌, ◌^◌, length, Err};
ghost use Rattle.ruby_lexer.specs.CommentEnds.{EndsBefore};
ghost use Rattle.ruby_lexer.specs.Machine as spec;
ghost use Rattle.ruby_lexer.specs.Answers.{Gives, Steps};

use crate::characters::behind;
use crate::kinds::is_end;
use crate::lines::last_comment_end;
use crate::machine::Machine;
use crate::refusal::RubyAt;
use crate::state::Opened;
use crate::token::RubyToken;
use src_text::Seq;
use std::alloc::Global;

/// The tokens of a text. The first place where none stands, or one that is refused, is answered in their place: `Syntax` at the
/// character that is no token, or that opens what isn't closed, and `Unsupported` at all of a token that is refused. `TooDeep` is
/// not answered. The last token is `End`.
pub fn tokens(alloc: Global, text: &str) -> Result<Seq<RubyToken>, RubyAt>
    requires { length text.now < 2 ^ 32 }
    ensures { Gives result (spec.tokens_of text.now) }
{
    run(alloc, text.as_bytes())
}

// The steps up to the end.
fn run(alloc: Global, text: &[u8]) -> Result<Seq<RubyToken>, RubyAt>
    requires { length text.now < 2 ^ 32 }
    ensures { Gives result (spec.tokens_of text.now) }
{
    let last_end = last_comment_end(text);
    let mut machine = Machine::at_start(alloc);
    'steps: while !is_end(machine.state.last) {
        step(alloc, text, last_end, &mut machine)?;
    }
    Ok(machine.into_tokens())
}

// A step.
#[tactic(auto, unfolding(crate::specs::Machine::step))]
fn step(alloc: Global, text: &[u8], last_end: usize, machine: &mut Machine) -> Result<(), RubyAt>
    requires size { length text.now < 2 ^ 32 }
    requires ends { EndsBefore last_end text.now }
    ensures { Steps (spec.step text.now machine.old) result machine.new }
{
    let place = machine.state.place;
    if place > text.len() {
        return Err(RubyAt::NoMemory);
    }
    let rest = behind(text, place);
    match machine.stack.top() {
        Some(Opened::Quoted(quoted)) => machine.quoted_step(alloc, quoted, rest),
        Some(Opened::Words(words)) => machine.words_step(alloc, words, rest),
        Some(Opened::Heredoc(heredoc)) => machine.heredoc_step(alloc, text, heredoc, rest),
        _ => machine.code_step(alloc, text, rest, last_end),
    }
}
