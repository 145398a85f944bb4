ghost use Rattle.std.specs.Prelude.{◌≡◌, ◌∷◌, [], reverse, OnOk, OnErr};
ghost use Rattle.ruby_lexer.specs.Machine as spec;

use crate::state::Opened;
use src_text::{Mem, Span};
use std::alloc::Global;
use std::marker::Model;

/// What is open. Contracts see it with the innermost first.
#[derive(Drop)]
pub struct Stack {
    opened: Vec<Opened>,
}

impl Model for Stack {
    ghost use Rattle.std.specs.Prelude.{List, reverse};
    ghost use Rattle.std.specs.Coded.{coded_list};
    ghost use Rattle.ruby_lexer.specs.declared.state.Opened.{Opened};

    ghost Value = { List Opened };

    ghost view = { λ s. reverse s.opened.items };
}

impl Stack {
    pub fn new(alloc: Global) -> Stack
        ensures { result ≡ [] }
    {
        Stack {
            opened: Vec::new(alloc),
        }
    }

    /// What is open innermost.
    pub fn top(&self) -> Option<Opened>
        ensures { result ≡ spec.top self.now }
    {
        self.opened.as_slice().last().copied()
    }

    pub fn push(&mut self, opened: Opened) -> Mem<()>
        ensures ok { OnOk result (self.new ≡ opened ∷ self.old) }
        ensures err { OnErr result (self.new ≡ self.old) }
    {
        self.opened.push(opened)?;
        Ok(())
    }

    /// Closes what is innermost, where something is open.
    pub fn pop(&mut self)
        ensures { self.new ≡ spec.popped self.old }
    {
        let _closed = self.opened.pop();
    }

    /// The opening of the innermost text that is open.
    pub fn innermost(&self) -> Option<Span>
        ensures { result ≡ spec.innermost self.now }
    {
        innermost_of(self.opened.as_slice())
    }

    /// Whether the innermost is a brace or nothing.
    pub fn is_plain_brace(&self) -> bool
        ensures { result ≡ spec.is_plain_brace self.now }
    {
        match self.top() {
            None => true,
            Some(Opened::Brace) => true,
            _ => false,
        }
    }
}

// The opening of a text.
fn opening(opened: Opened) -> Option<Span>
    ensures { result ≡ spec.opening_of opened }
{
    match opened {
        Opened::Quoted(quoted) => Some(quoted.at),
        Opened::Words(words) => Some(words.at),
        Opened::Heredoc(heredoc) => Some(heredoc.at),
        _ => None,
    }
}

// The opening of the last text in a list.
#[tactic(auto, using(crate::proofs::Stacks::innermost_more))]
fn innermost_of(stack: &[Opened]) -> Option<Span>
    ensures { result ≡ spec.innermost (reverse stack.now) }
{
    let mut rest = stack;
    while let [outer @ .., inner] = rest {
        if let Some(at) = opening(*inner) {
            return Some(at);
        }
        rest = outer;
    }
    None
}
