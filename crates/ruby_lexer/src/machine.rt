ghost use Rattle.std.specs.Prelude.{◌≡◌, ◌<◌, ◌+◌, ◌^◌, Ok};
ghost use Rattle.ruby_lexer.specs.Machine as spec;
ghost use Rattle.ruby_lexer.specs.Answers.{Steps};

use crate::kind::RubyKind;
use crate::placing::{here, put, token};
use crate::refusal::RubyAt;
use crate::stack::Stack;
use crate::state::{Opened, Quoted, Quotes, State};
use crate::token::{RubyToken, RubyValue};
use src_text::{Seq, Span};
use std::alloc::Global;

/// The lexer at a place of a text.
#[derive(Drop)]
pub struct Machine {
    pub state: State,
    /// What is open.
    pub stack: Stack,
    /// What the part stands for that is being read.
    pub part: Seq<u8>,
    /// The tokens so far.
    pub tokens: Seq<RubyToken>,
}

impl Machine {
    /// At the text's start.
    pub fn at_start(alloc: Global) -> Machine
        ensures { result ≡ spec.at_start }
    {
        Machine {
            state: crate::placing::start(),
            stack: Stack::new(alloc),
            part: Seq::new(alloc),
            tokens: Seq::new(alloc),
        }
    }

    /// The tokens, where nothing else of the lexer is wanted.
    pub fn into_tokens(self) -> Seq<RubyToken>
        ensures { result ≡ self.tokens }
    {
        let Machine {
            state: _state,
            stack: _stack,
            part: _part,
            tokens,
        } = self;
        tokens
    }

    /// A step without a token.
    pub fn moves(&mut self, state: State)
        ensures { spec.moves self.old state ≡ Ok self.new }
    {
        self.state = state;
    }

    /// A step of one token.
    pub fn puts(&mut self, token: RubyToken) -> Result<(), RubyAt>
        ensures { Steps (spec.puts self.old token) result self.new }
    {
        self.state = put(self.state, &token);
        self.tokens.push(token)?;
        Ok(())
    }

    /// A step of a token without a value, of so many bytes.
    pub fn puts_kind(&mut self, kind: RubyKind, len: usize) -> Result<(), RubyAt>
        requires { self.old.state.place + len < 2 ^ 32 }
        ensures { Steps (spec.puts_kind self.old kind len) result self.new }
    {
        let found = token(self.state, kind, RubyValue::Absent, len);
        self.puts(found)
    }

    /// A step of one token that opens something.
    pub fn opens(&mut self, token: RubyToken, opened: Opened) -> Result<(), RubyAt>
        ensures { Steps (spec.opens self.old token opened) result self.new }
    {
        self.stack.push(opened)?;
        self.puts(token)
    }

    /// A step of a token of so many bytes that opens a text up to a character.
    pub fn opens_quoted(
        &mut self,
        quotes: Quotes,
        alias: bool,
        kind: RubyKind,
        len: usize,
    ) -> Result<(), RubyAt>
        requires some { 0 < len }
        requires fits { self.old.state.place + len < 2 ^ 32 }
        ensures { Steps (spec.opens_quoted self.old quotes alias kind len) result self.new }
    {
        let opening = token(self.state, kind, RubyValue::Absent, len);
        let at = here(self.state);
        self.opens(opening, Opened::Quoted(Quoted { quotes, at, alias }))
    }
}
