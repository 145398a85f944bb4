ghost use Rattle.std.specs.Prelude.{◌≡◌, ◌≤◌, ◌<◌, ◌+◌, ◌^◌, length, map, Ok};
ghost use Rattle.ruby_lexer.specs.Symbols as spec;
ghost use Rattle.ruby_lexer.specs.Answers.{Gives};

use crate::characters::{behind, has_front, marked_len, single_equals, word_len};
use crate::kind::RubyKind;
use crate::placing::{text_value, token};
use crate::refusal::RubyAt;
use crate::state::State;
use crate::token::RubyToken;
use std::alloc::Global;

const OPERATORS: [&str; 27] = [
    "===", "<=>", "[]=", "**", "==", "!=", "=~", "!~", "<=", ">=", "<<", ">>", "[]", "+@", "-@",
    "+", "-", "*", "/", "%", "<", ">", "&", "|", "^", "~", "!",
];

/// The longest operator.
#[tactic(auto, unfolding(crate::specs::Symbols::operator_len))]
pub fn operator_len(text: &[u8]) -> usize
    ensures value { result ≡ spec.operator_len text.now }
    ensures within { result ≤ length text.now }
{
    first_front(&OPERATORS, text)
}

// How long the first of these is with which the text begins.
fn first_front(fronts: &[&str], text: &[u8]) -> usize
    ensures value { result ≡ spec.first_front (map (λ f. f.now) fronts.now) text.now }
    ensures within { result ≤ length text.now }
{
    for front in fronts {
        if has_front(front, text) {
            return front.len();
        }
    }
    0
}

/// The name of a symbol.
pub fn symbol_name_len(text: &[u8]) -> usize
    ensures value { result ≡ spec.symbol_name_len text.now }
    ensures within { result ≤ length text.now }
{
    let len = marked_len(text);
    if len == 0 {
        operator_len(text)
    } else if len == word_len(text) && single_equals(behind(text, len)) {
        len + 1
    } else {
        len
    }
}

/// The symbol without quotes whose `:` is here.
#[tactic(auto, unfolding(crate::specs::Symbols::symbol_here))]
pub fn symbol_here(alloc: Global, state: State, rest: &[u8]) -> Result<Option<RubyToken>, RubyAt>
    requires { state.place + length rest.now < 2 ^ 32 }
    ensures { Gives result (Ok (spec.symbol_here state rest.now)) }
{
    let name = behind(rest, 1);
    let len = symbol_name_len(name);
    if len == 0 {
        return Ok(None);
    }
    let value = text_value(alloc, &name[..len])?;
    Ok(Some(token(state, RubyKind::Symbol, value, len + 1)))
}
