ghost use Rattle.std.specs.Prelude.{◌≡◌, IfOk, OnOk};
ghost use Rattle.rbs_grammar.specs.Functions as spec;
ghost use Rattle.rbs_parser.specs.Parameters.{added, given_as};

use crate::functions::{Parameter, add, no_params};
use rbs_grammar::Parameters;
use src_text::Mem;
use std::alloc::Global;
use std::marker::Model;

/// The parameters that are read so far. They are handed on often and are large, so they stand behind a pointer; contracts see them as
/// they are.
#[derive(Drop)]
pub struct Gathered {
    inner: Box<Parameters>,
}

impl Model for Gathered {
    ghost use Rattle.rbs_grammar.specs.declared.parts.Parameters.{Parameters as Seen};

    ghost Value = { Seen };

    ghost use Rattle.std.specs.Coded.{codes};
    ghost use Rattle.rbs_tree.specs.contracts.types.Ty as ty;

    ghost coded = { Prim.hlevel (codes, ty.the_row.coded) };

    ghost view = { λ g. g.inner.value };
}

impl Gathered {
    /// No parameters.
    pub fn none(alloc: Global) -> Mem<Gathered>
        ensures { IfOk result (λ none. none ≡ spec.no_params) }
    {
        Ok(Gathered {
            inner: Box::new(alloc, no_params(alloc))?,
        })
    }

    /// Puts one more parameter behind the others.
    pub fn add(&mut self, alloc: Global, next: Parameter) -> Mem<()>
        ensures { OnOk result (self.new ≡ added self.old (given_as next)) }
    {
        add(alloc, &mut self.inner, next)
    }

    pub fn into_parameters(self) -> Parameters
        ensures { result ≡ self }
    {
        let Gathered { inner } = self;
        Box::into_inner(inner)
    }
}
