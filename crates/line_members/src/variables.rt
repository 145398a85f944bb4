ghost use Rattle.std.specs.Prelude.{◌≡◌, ◌≤◌, ℕ, List, [], ◌∷◌, drop, length, IfOk, OnOk};
ghost use Rattle.std.specs.List.{IsDistinct};
ghost use Rattle.std.specs.Map.{keys_of};
ghost use Rattle.sig_rules.specs.declared.line.Step.{Step};
ghost use Rattle.sig_rules.specs.Methods.{first_variable, same_word, variable_along};
ghost use Rattle.sig_rules.specs.Worlds.{by_name};
ghost use Rattle.line_members.specs.Along.{IsListed, or_behind};

use crate::entries::{joined, shared_each, without};
use crate::given::variables_at;
use method_steps::NameTable;
use rbs_tree::Ty;
use sig_rules::{GivenVariable, Names, Shared, Step};
use src_text::{Mem, Seq, Text};
use std::alloc::Global;

/// Variables by name, each name once, which other lists may have too.
pub(crate) type Variables = Seq<Shared<(Text, Ty)>>;

/// The variables along these steps, each by the first step that declares it, in the order in which they are first seen, by those from one
/// of the steps on.
pub(crate) fn variables_along<N: Names>(
    alloc: Global,
    names: &N,
    steps: &[Shared<Step>],
    start: usize,
    behind: Variables,
) -> Mem<Variables>
    requires { start ≤ length steps.now }
    ensures { IsListed (variable_along (N.all names.now) (drop start steps.now)) behind → IfOk result (IsListed (variable_along (N.all names.now) steps.now)) }
{
    let mut variables = behind;
    let mut at = start;
    while at > 0 {
        at -= 1;
        variables = one_more(alloc, names, &steps[at..], variables)?;
    }
    Ok(variables)
}

// The variables from the first of these steps on, by those behind it.
fn one_more<N: Names>(
    alloc: Global,
    names: &N,
    steps: &[Shared<Step>],
    behind: Variables,
) -> Mem<Variables>
    ensures { (step : Step) (rest : List Step) → steps.now ≡ step ∷ rest → IsListed (variable_along (N.all names.now) rest) behind → IfOk result (IsListed (variable_along (N.all names.now) (step ∷ rest))) }
{
    match steps {
        [] => Ok(behind),
        [step, ..] => {
            let given = variables_at(alloc, names, step.get())?;
            with_given(alloc, given, behind)
        }
    }
}

// The first of these variables of each name, and behind them those of other names.
fn with_given(alloc: Global, given: Seq<GivenVariable>, behind: Variables) -> Mem<Variables>
    ensures { IsDistinct same_word (keys_of behind) → IfOk result (IsListed (λ name. or_behind (first_variable name given) (by_name behind name))) }
{
    if given.is_empty() {
        return Ok(behind);
    }
    let own = with_new(NameTable::new(alloc), given)?;
    let others = without(alloc, behind, &own)?;
    let own = shared_each(alloc, own.into_entries(alloc)?)?;
    joined(own, others)
}

// With those of these variables whose names the table doesn't have.
fn with_new(variables: NameTable<Ty>, given: Seq<GivenVariable>) -> Mem<NameTable<Ty>>
    ensures { IfOk result (λ all. (name : List ℕ) → by_name all name ≡ or_behind (by_name variables name) (first_variable name given)) }
{
    let mut all = variables;
    for variable in given.into_vec() {
        put_new(&mut all, variable)?;
    }
    Ok(all)
}

// Puts a variable, unless the table has one of its name.
fn put_new(all: &mut NameTable<Ty>, variable: GivenVariable) -> Mem<()>
    ensures { OnOk result ((name : List ℕ) → by_name all.new name ≡ or_behind (by_name all.old name) (first_variable name (variable ∷ []))) }
{
    if all.has(&variable.name) {
        return Ok(());
    }
    all.put(variable.name, variable.ty)
}
