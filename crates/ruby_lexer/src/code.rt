ghost use Rattle.std.specs.Prelude.{◌≡◌, ◌≤◌, ◌<◌, ◌+◌, ◌^◌, ◌&&◌, IsTrue, length, drop};
ghost use Rattle.ruby_lexer.specs.Characters as characters;
ghost use Rattle.ruby_lexer.specs.Symbols as symbols;
ghost use Rattle.ruby_lexer.specs.Words as words;
ghost use Rattle.ruby_lexer.specs.CommentEnds.{EndsBefore};
ghost use Rattle.ruby_lexer.specs.Machine as spec;
ghost use Rattle.ruby_lexer.specs.Answers.{Steps};

use crate::blanks::{comment_here, past_blank, past_comment};
use crate::characters::{begins, begins_with_digit, begins_word};
use crate::kind::RubyKind;
use crate::kinds::is_first;
use crate::lines::{blank_len, line_end_len};
use crate::machine::Machine;
use crate::numbers::number_here;
use crate::refusal::RubyAt;
use crate::state::{Quotes, State};
use crate::symbols::symbol_here;
use crate::words::{is_place_of_name, name_here, variable_here, word_here};
use std::alloc::Global;

// Whether a symbol in quotes opens here.
fn begins_quoted_symbol(rest: &[u8]) -> bool
    ensures value { result ≡ (characters.begins 58 rest.now && characters.begins 34 (drop 1 rest.now)) }
    ensures within { IsTrue result → 2 ≤ length rest.now }
{
    match rest {
        [b':', b'"', ..] => true,
        _ => false,
    }
}

impl Machine {
    // The end of the text.
    fn at_end(&mut self) -> Result<(), RubyAt>
        requires { self.old.state.place < 2 ^ 32 }
        ensures { Steps (spec.at_end self.old (spec.innermost self.old.stack)) result self.new }
    {
        match self.stack.innermost() {
            Some(opening) => Err(RubyAt::Syntax(opening)),
            None => self.puts_kind(RubyKind::End, 0),
        }
    }

    // A `:`.
    fn colon(&mut self, alloc: Global, text: &[u8], rest: &[u8]) -> Result<(), RubyAt>
        requires within { self.old.state.place + length rest.now ≤ length text.now }
        requires some { 0 < length rest.now }
        requires size { length text.now < 2 ^ 32 }
        ensures { Steps (spec.colon text.now self.old rest.now (symbols.symbol_here self.old.state rest.now)) result self.new }
    {
        match symbol_here(alloc, self.state, rest)? {
            Some(symbol) => self.puts(symbol),
            None => self.sign_step(alloc, text, rest),
        }
    }

    // A token that is no word and no number, by its first byte.
    #[tactic(auto, unfolding(crate::specs::Machine::other_token))]
    fn other_token(&mut self, alloc: Global, text: &[u8], rest: &[u8]) -> Result<(), RubyAt>
        requires some { 0 < length rest.now }
        requires within { self.old.state.place + length rest.now ≤ length text.now }
        requires size { length text.now < 2 ^ 32 }
        ensures { Steps (spec.other_token text.now self.old rest.now) result self.new }
    {
        if begins(b'@', rest) || begins(b'$', rest) {
            let variable = variable_here(alloc, self.state, rest)?;
            return self.puts(variable);
        }
        if begins(b'\'', rest) {
            return self.opens_quoted(Quotes::Plain, false, RubyKind::StringOpen, 1);
        }
        if begins(b'"', rest) {
            return self.opens_quoted(Quotes::Double, false, RubyKind::StringOpen, 1);
        }
        if begins_quoted_symbol(rest) {
            let alias = is_first(self.state.alias);
            return self.opens_quoted(Quotes::Symbol, alias, RubyKind::SymbolOpen, 2);
        }
        if begins(b':', rest) {
            return self.colon(alloc, text, rest);
        }
        self.sign_step(alloc, text, rest)
    }

    // A token where no name stands.
    #[tactic(auto, unfolding(crate::specs::Machine::token_step))]
    fn token_step(&mut self, alloc: Global, text: &[u8], rest: &[u8]) -> Result<(), RubyAt>
        requires some { 0 < length rest.now }
        requires within { self.old.state.place + length rest.now ≤ length text.now }
        requires size { length text.now < 2 ^ 32 }
        ensures { Steps (spec.token_step text.now self.old rest.now) result self.new }
    {
        if begins_with_digit(rest) {
            let number = number_here(false, self.state, rest)?;
            return self.puts(number);
        }
        if begins_word(rest) {
            let word = word_here(alloc, text, self.state, rest)?;
            return self.puts(word);
        }
        self.other_token(alloc, text, rest)
    }

    // The name here, or what stands here where there is none.
    fn name_step(&mut self, alloc: Global, text: &[u8], rest: &[u8]) -> Result<(), RubyAt>
        requires some { 0 < length rest.now }
        requires within { self.old.state.place + length rest.now ≤ length text.now }
        requires size { length text.now < 2 ^ 32 }
        ensures { Steps (spec.name_step text.now self.old rest.now (words.name_here self.old.state rest.now)) result self.new }
    {
        match name_here(alloc, self.state, rest)? {
            Some(name) => self.puts(name),
            None => self.token_step(alloc, text, rest),
        }
    }

    // What isn't a blank, a comment or a line's end.
    #[tactic(auto, unfolding(crate::specs::Machine::visible_step))]
    fn visible_step(&mut self, alloc: Global, text: &[u8], rest: &[u8]) -> Result<(), RubyAt>
        requires some { 0 < length rest.now }
        requires within { self.old.state.place + length rest.now ≤ length text.now }
        requires size { length text.now < 2 ^ 32 }
        ensures { Steps (spec.visible_step text.now self.old rest.now) result self.new }
    {
        if is_place_of_name(self.state) {
            self.name_step(alloc, text, rest)
        } else {
            self.token_step(alloc, text, rest)
        }
    }

    // A step in code, but for long comments.
    #[tactic(auto, unfolding(crate::specs::Machine::line_step))]
    fn line_step(
        &mut self,
        alloc: Global,
        text: &[u8],
        rest: &[u8],
        last_end: usize,
    ) -> Result<(), RubyAt>
        requires within { self.old.state.place + length rest.now ≤ length text.now }
        requires size { length text.now < 2 ^ 32 }
        requires ends { EndsBefore last_end text.now }
        ensures { Steps (spec.line_step text.now self.old rest.now) result self.new }
    {
        if rest.is_empty() {
            return self.at_end();
        }
        if blank_len(rest) != 0 {
            self.state = past_blank(self.state, rest);
            return Ok(());
        }
        if begins(b'#', rest) {
            self.state = past_comment(self.state, rest);
            return Ok(());
        }
        let end = line_end_len(rest);
        if end != 0 {
            return self.ends_line(text, end, last_end);
        }
        self.visible_step(alloc, text, rest)
    }

    /// A step in code, where so many bytes are left at the last line that ends a long comment.
    #[tactic(auto, unfolding(crate::specs::Machine::code_step))]
    pub fn code_step(
        &mut self,
        alloc: Global,
        text: &[u8],
        rest: &[u8],
        last_end: usize,
    ) -> Result<(), RubyAt>
        requires within { self.old.state.place + length rest.now ≤ length text.now }
        requires size { length text.now < 2 ^ 32 }
        requires ends { EndsBefore last_end text.now }
        requires ends_here { EndsBefore last_end rest.now }
        ensures { Steps (spec.code_step text.now self.old rest.now) result self.new }
    {
        let comment = comment_here(text, self.state, rest, last_end);
        if comment == 0 {
            return self.line_step(alloc, text, rest, last_end);
        }
        self.state = State {
            place: self.state.place + comment,
            ..self.state
        };
        Ok(())
    }
}
