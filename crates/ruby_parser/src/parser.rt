//! The reading of a whole text.

ghost use Rattle.std.specs.Prelude.{◌≡◌, ◌<◌, ◌^◌, length, IfOk};
ghost use Rattle.ruby_exprs.specs.Derived.{derived};
ghost use Rattle.ruby_lexer.specs.Answers.{Gives};
ghost use Rattle.ruby_lowering.specs.Lowering as lowering;
ghost use Rattle.ruby_parser.specs.Programs as spec;

use crate::refused::refused_in;
use ruby_exprs::derive;
use ruby_grammar::Tree;
use ruby_lexer::{RubyAt, RubyToken, tokens};
use ruby_lowering::root_of;
use ruby_numbers::numbered;
use ruby_tree::{Node, Program};
use src_text::{Boxed, Mem};
use std::alloc::Global;

/// The program that a text is, or why it is refused: the lexer's fault, then the grammar's, then the refused node that begins first,
/// of two with one start the outer.
#[tactic(auto, using(crate::proofs::Faults::lexer_fault, crate::proofs::Faults::lexed))]
pub fn parse(alloc: Global, text: &str) -> Result<Program, RubyAt>
    requires { length text.now < 2 ^ 32 }
    ensures { Gives result (spec.program_of text.now) }
{
    let tokens = tokens(alloc, text)?;
    program_of_tokens(alloc, tokens.as_slice())
}

// The program that tokens are, or why they are refused.
#[tactic(auto, using(crate::proofs::Faults::grammar_fault, crate::proofs::Faults::told))]
fn program_of_tokens(alloc: Global, tokens: &[RubyToken]) -> Result<Program, RubyAt>
    ensures { Gives result (spec.program_derived tokens.now (derived tokens.now)) }
{
    let tree = derive(alloc, tokens)?;
    program_of_tree(alloc, tokens, tree)
}

// The program that a concrete tree stands for, unless a node is refused.
fn program_of_tree(alloc: Global, tokens: &[RubyToken], tree: Tree) -> Result<Program, RubyAt>
    ensures { Gives result (spec.program_of_tree tokens.now tree) }
{
    let root = root_in(alloc, tokens, tree)?;
    if let Some(refused) = refused_in(root.get()) {
        return Err(RubyAt::Unsupported(refused.at, refused.form));
    }
    let root = numbered_root(alloc, root.into_inner())?;
    Ok(Program { root })
}

// The node that a concrete tree stands for. The concrete tree goes before the nodes get their numbers.
fn root_in(alloc: Global, tokens: &[RubyToken], tree: Tree) -> Mem<Boxed<Node>>
    ensures { IfOk result (λ root. root ≡ lowering.root_of tokens.now tree) }
{
    root_of(alloc, tokens, &tree)
}

// A tree whose nodes have numbers from 0 on.
fn numbered_root(alloc: Global, root: Node) -> Mem<Node>
    ensures { IfOk result (λ made. made ≡ spec.numbered_root root) }
{
    let mut next = 0;
    numbered(alloc, root, &mut next)
}
