ghost use Rattle.std.specs.Prelude.{◌≡◌, ◌≤◌, ◌||◌, ◌&&◌, not, ℕ, Bool, List, [], ◌∷◌, ◌++◌, drop, length, codes, Option, Some, None, IfOk, OnOk, if◌then◌else◌};
ghost use Rattle.std.specs.List.{IsDistinct};
ghost use Rattle.std.specs.Map.{keys_of};
ghost use Rattle.std.specs.Option.{is_some};
ghost use Rattle.sig_rules.specs.declared.line.Step.{Step};
ghost use Rattle.sig_rules.specs.declared.method.Method.{Method};
ghost use Rattle.sig_rules.specs.Methods.{declared_along, first_made, same_word};
ghost use Rattle.sig_rules.specs.Methods as methods;
ghost use Rattle.sig_rules.specs.Worlds.{by_name};
ghost use Rattle.method_steps.specs.Steps.{declared_from};
ghost use Rattle.line_members.specs.Along.{AddsMade, HasGiven, IsListed, IsTaken, named_new};

use crate::entries::{Methods, in_front_of_others, joined, method_named, without};
use crate::few::{NameSet, copies_of, given_names, given_words, wanted_names};
use crate::given::methods_at;
use method_steps::{Making, NameTable, methods_from};
use sig_rules::{GivenMethod, Method, Names, Shared, Step};
use src_text::{Mem, Seq, Text};
use std::alloc::Global;

// With so many names at most, each name is compared with all of them.
const MOST_COMPARED: usize = 8;

/// The methods that are declared along these steps, each by the first step that declares it, in the order in which they are first seen,
/// by those that are declared from one of the steps on.
pub(crate) fn methods_along<N: Names, M: Making>(
    alloc: Global,
    names: &N,
    making: &M,
    steps: &[Shared<Step>],
    start: usize,
    behind: Methods,
) -> Mem<Methods>
    requires { start ≤ length steps.now }
    ensures { IsListed (declared_along (N.all names.now) (M.made making.now) (drop start steps.now)) behind → IfOk result (IsListed (declared_along (N.all names.now) (M.made making.now) steps.now)) }
{
    let mut methods = behind;
    let mut at = start;
    while at > 0 {
        at -= 1;
        methods = one_more(alloc, names, making, &steps[at..], methods)?;
    }
    Ok(methods)
}

// The methods from the first of these steps on, by those that are declared behind it.
fn one_more<N: Names, M: Making>(
    alloc: Global,
    names: &N,
    making: &M,
    steps: &[Shared<Step>],
    behind: Methods,
) -> Mem<Methods>
    ensures { (step : Step) (rest : List Step) → steps.now ≡ step ∷ rest → IsListed (declared_along (N.all names.now) (M.made making.now) rest) behind → IfOk result (IsListed (declared_along (N.all names.now) (M.made making.now) (step ∷ rest))) }
{
    match steps {
        [] => Ok(behind),
        [step, ..] => {
            let given = methods_at(alloc, names, step.get())?;
            with_given(alloc, making, steps, behind, given)
        }
    }
}

// The methods from the first of these steps on, by what is given there and what is declared behind it.
fn with_given<M: Making>(
    alloc: Global,
    making: &M,
    steps: &[Shared<Step>],
    behind: Methods,
    given: Seq<GivenMethod>,
) -> Mem<Methods>
    ensures { (step : Step) (rest : List Step) → steps.now ≡ step ∷ rest → IsDistinct same_word (keys_of behind) → IfOk result (IsListed (declared_from (M.made making.now) step rest (by_name behind) given)) }
{
    if given.is_empty() {
        return Ok(behind);
    }
    if given.len() > MOST_COMPARED {
        return with_many(alloc, making, steps, behind, given);
    }
    let names = given_words(alloc, given.as_slice())?;
    let mut found = found_there(alloc, making, steps, &behind, given)?;
    in_front_of_few(alloc, &mut found, names.as_slice(), behind)
}

// The same, where so many are given that each name behind it is looked up in a table.
fn with_many<M: Making>(
    alloc: Global,
    making: &M,
    steps: &[Shared<Step>],
    behind: Methods,
    given: Seq<GivenMethod>,
) -> Mem<Methods>
    ensures { (step : Step) (rest : List Step) → steps.now ≡ step ∷ rest → IsDistinct same_word (keys_of behind) → IfOk result (IsListed (declared_from (M.made making.now) step rest (by_name behind) given)) }
{
    let names = given_names(alloc, given.as_slice())?;
    let mut found = found_there(alloc, making, steps, &behind, given)?;
    in_front(alloc, &mut found, names, behind)
}

// What the first of these steps has of the names that are given there.
fn found_there<M: Making>(
    alloc: Global,
    making: &M,
    steps: &[Shared<Step>],
    behind: &Methods,
    given: Seq<GivenMethod>,
) -> Mem<NameTable<Method>>
    ensures { (step : Step) (rest : List Step) → steps.now ≡ step ∷ rest → IfOk result (λ found. HasGiven (declared_from (M.made making.now) step rest (by_name behind.now) given) given found) }
{
    let wanted = wanted_names(alloc, given.as_slice())?;
    let few = copies_of(alloc, &wanted, behind.as_slice())?;
    methods_from(alloc, making, steps, few, given)
}

// What is found of these names, and behind it what there is of other names.
fn in_front(
    alloc: Global,
    found: &mut NameTable<Method>,
    names: NameSet,
    behind: Methods,
) -> Mem<Methods>
    ensures { IsDistinct same_word (keys_of behind) → IfOk result (IsListed (λ name. if is_some (by_name names name) then by_name found.old name else by_name behind name)) }
{
    let others = without(alloc, behind, &names)?;
    let names = names.into_entries(alloc)?;
    let own = taken(alloc, found, names.as_slice())?;
    joined(own, others)
}

// The same of a few names.
fn in_front_of_few(
    alloc: Global,
    found: &mut NameTable<Method>,
    names: &[(Text, ())],
    behind: Methods,
) -> Mem<Methods>
    ensures { IsDistinct same_word (keys_of behind) → IfOk result (IsListed (λ name. if is_some (by_name names.now name) then by_name found.old name else by_name behind name)) }
{
    let own = taken(alloc, found, names)?;
    in_front_of_others(own, behind, names)
}

// What is found of these names, in their order.
fn taken(alloc: Global, found: &mut NameTable<Method>, names: &[(Text, ())]) -> Mem<Methods>
    ensures { IfOk result (λ own. IsListed (λ name. if is_some (by_name names.now name) then by_name found.old name else None) own) }
{
    let mut own = Seq::new(alloc);
    for entry in names {
        take_one(alloc, &entry.0, found, &mut own)?;
    }
    Ok(own)
}

// Takes what is found of a name, if there is something left.
fn take_one(alloc: Global, name: &Text, left: &mut NameTable<Method>, own: &mut Methods) -> Mem<()>
    ensures { OnOk result ((found : List ℕ → Option Method) (seen : List ℕ → Bool) → IsTaken found seen own.old left.old → IsTaken found (λ other. same_word other name.now || seen other) own.new left.new) }
{
    match left.take(name) {
        None => Ok(()),
        Some(entry) => {
            own.push(Shared::new(alloc, entry)?)?;
            Ok(())
        }
    }
}

/// Methods with the `new` that steps make, if they make one.
#[derive(Drop)]
pub(crate) struct WithNew {
    pub(crate) methods: Methods,
    /// Whether there is a `new` that is made.
    pub(crate) makes_new: bool,
}

/// With the `new` that these steps make, where none is declared.
pub(crate) fn with_made<M: Making>(
    alloc: Global,
    making: &M,
    steps: &[Shared<Step>],
    declared: Methods,
) -> Mem<WithNew>
    ensures { IfOk result (λ all. AddsMade (M.made making.now) steps.now declared all.methods all.makes_new) }
{
    making.only_new();
    if !needs_new(making, steps, &declared) {
        return Ok(WithNew {
            methods: declared,
            makes_new: false,
        });
    }
    let new = making.first_new(alloc, steps)?;
    with_new(alloc, declared, new)
}

// Whether these steps make a `new`, and none is declared.
fn needs_new<M: Making>(making: &M, steps: &[Shared<Step>], declared: &Methods) -> bool
    ensures { result ≡ (methods.is_some (first_made (M.made making.now) steps.now (codes "new")) && not (is_some (by_name declared.now (codes "new")))) }
{
    making.makes_new(steps) && !has_new(declared)
}

// Whether there is a `new` among these methods.
fn has_new(methods: &Methods) -> bool
    ensures { result ≡ is_some (by_name methods.now (codes "new")) }
{
    method_named(methods.as_slice(), "new").is_some()
}

// With a `new` that is made, if there is one.
fn with_new(alloc: Global, declared: Methods, new: Option<Method>) -> Mem<WithNew>
    ensures methods { IfOk result (λ all. all.methods ≡ declared ++ named_new new) }
    ensures makes { IfOk result (λ all. all.makes_new ≡ is_some new) }
{
    match new {
        None => Ok(WithNew {
            methods: declared,
            makes_new: false,
        }),
        Some(new) => {
            let mut methods = declared;
            let word = Text::from_str(alloc, "new")?;
            methods.push(Shared::new(alloc, (word, new))?)?;
            Ok(WithNew {
                methods,
                makes_new: true,
            })
        }
    }
}
