ghost use Rattle.std.specs.Prelude.{◌≡◌, ℕ, List, codes, false, IfOk};
ghost use Rattle.sig_rules.specs.Methods.{first_made, is_some, overloads_of, same_word};
ghost use Rattle.sig_rules.specs.Worlds.{by_name};
ghost use Rattle.method_steps.specs.Steps.{elsewhere};

use crate::living::Elsewhere;
use crate::making::Making;
use crate::name_table::NameTable;
use rbs_tree::{MethodType, copy_methods, copy_name};
use sig_rules::{Method, Shared, Step};
use src_text::{Mem, Seq, Text};
use std::alloc::Global;

/// A step and what is behind it.
#[derive(Clone, Copy)]
pub(crate) struct Site<'a, M> {
    pub(crate) making: &'a M,
    pub(crate) step: &'a Step,
    /// The steps behind it.
    pub(crate) rest: &'a [Shared<Step>],
    /// The steps from it on.
    pub(crate) steps: &'a [Shared<Step>],
}

/// What is found elsewhere than among the declarations of a step.
#[derive(Clone, Copy)]
pub(crate) struct Around<'a, M> {
    pub(crate) making: &'a M,
    pub(crate) steps: &'a [Shared<Step>],
    pub(crate) behind: &'a NameTable<Method>,
}

impl<'a, M: Making> Elsewhere for Around<'a, M> {
    ghost knows = { λ around name. is_some (elsewhere (M.made around.making.now) around.steps.now (by_name around.behind.now) name) };

    fn has(&self, name: &Text) -> bool {
        self.behind.has(name) || makes(self.making, self.steps, name)
    }
}

// Whether some of these steps has a method of this name that is made.
fn makes<M: Making>(making: &M, steps: &[Shared<Step>], name: &Text) -> bool
    ensures { result ≡ is_some (first_made (M.made making.now) steps.now name.now) }
{
    making.only_new();
    is_new(name) && making.makes_new(steps)
}

// Whether this is the name of the method that is made without a declaration.
fn is_new(name: &Text) -> bool
    ensures { result ≡ same_word name.now (codes "new") }
{
    name.as_str() == "new"
}

/// A copy of the method of a name, by this table or else by what these steps make.
pub(crate) fn copy_found<M: Making>(
    alloc: Global,
    making: &M,
    steps: &[Shared<Step>],
    methods: &NameTable<Method>,
    name: &Text,
) -> Mem<Option<Method>>
    ensures { IfOk result (λ found. found ≡ elsewhere (M.made making.now) steps.now (by_name methods.now) name.now) }
{
    match methods.get(name) {
        Some(method) => Ok(Some(copy_method(alloc, method)?)),
        None => made_of(alloc, making, steps, name),
    }
}

/// The overloads of a name, taken out of this table or else by what these steps make.
pub(crate) fn take_overloads<M: Making>(
    alloc: Global,
    making: &M,
    steps: &[Shared<Step>],
    methods: &mut NameTable<Method>,
    name: &Text,
) -> Mem<Seq<MethodType>>
    ensures overloads { IfOk result (λ overloads. overloads ≡ overloads_of (elsewhere (M.made making.now) steps.now (by_name methods.old) name.now)) }
    ensures others { (other : List ℕ) → same_word name.now other ≡ false → by_name methods.new other ≡ by_name methods.old other }
{
    match methods.take(name) {
        Some((_, method)) => Ok(method.overloads),
        None => Ok(overloads_of(alloc, made_of(alloc, making, steps, name)?)),
    }
}

// The overloads of a method, or none.
fn overloads_of(alloc: Global, method: Option<Method>) -> Seq<MethodType>
    ensures { result ≡ overloads_of method }
{
    match method {
        Some(method) => method.overloads,
        None => Seq::new(alloc),
    }
}

// The first method of this name that these steps make.
fn made_of<M: Making>(
    alloc: Global,
    making: &M,
    steps: &[Shared<Step>],
    name: &Text,
) -> Mem<Option<Method>>
    ensures { IfOk result (λ made. made ≡ first_made (M.made making.now) steps.now name.now) }
{
    making.only_new();
    if is_new(name) {
        making.first_new(alloc, steps)
    } else {
        Ok(None)
    }
}

/// A copy of a method.
pub fn copy_method(alloc: Global, method: &Method) -> Mem<Method>
    ensures { IfOk result (λ copy. copy ≡ method.now) }
{
    let overloads = copy_methods(alloc, method.overloads.as_slice())?;
    let owner = copy_name(alloc, &method.owner)?;
    Ok(Method {
        overloads,
        visible: method.visible,
        owner,
        kind: method.kind,
    })
}
