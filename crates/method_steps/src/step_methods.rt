ghost use Rattle.std.specs.Prelude.{◌≡◌, ◌++◌, ◌+◌, ◌*◌, ◌<◌, ◌≤◌, ℕ, suc, List, [], ◌∷◌, length, Option, Some, None, false, IfOk, IfSome, IfNone, OnOk, if◌then◌else◌};
ghost use Rattle.std.specs.Option.{option_to_list};
ghost use Rattle.sig_rules.specs.declared.line.Step.{Step};
ghost use Rattle.sig_rules.specs.declared.given.GivenMethod.{GivenMethod};
ghost use Rattle.sig_rules.specs.declared.method.Method.{Method};
ghost use Rattle.sig_rules.specs.Methods.{of_name, once_more, same_word, with_all};
ghost use Rattle.sig_rules.specs.Worlds.{by_name};
ghost use Rattle.method_steps.specs.Gathering.{ComesOut, Holds, TakesOut, Task, aim, group_of};
ghost use Rattle.method_steps.specs.Steps.{alive, declared_from, elsewhere};

use crate::groups::{Entry, Groups, grouped, take_any, take_wanted};
use crate::growing::Growing;
use crate::living::living;
use crate::making::Making;
use crate::name_table::NameTable;
use crate::site::{Around, Site, copy_found, take_overloads};
use sig_rules::{GivenMethod, Method, Shared, Step, What};
use src_text::{Mem, Seq, Text};
use std::alloc::Global;

/// The methods from the first of these steps on, by what its declarations give and what is found behind it.
pub fn methods_from<M: Making>(
    alloc: Global,
    making: &M,
    steps: &[Shared<Step>],
    behind: NameTable<Method>,
    given: Seq<GivenMethod>,
) -> Mem<NameTable<Method>>
    ensures { (step : Step) (rest : List Step) → steps.now ≡ step ∷ rest → IfOk result (λ methods. (name : List ℕ) → by_name methods name ≡ declared_from (M.made making.now) step rest (by_name behind) given name) }
{
    match steps {
        [] => Ok(behind),
        [step, rest @ ..] => {
            let around = Around {
                making,
                steps,
                behind: &behind,
            };
            let groups = grouped(alloc, living(alloc, &around, given)?)?;
            let site = Site {
                making,
                step: step.get(),
                rest,
                steps,
            };
            gather(alloc, &site, behind, groups)
        }
    }
}

// The methods from a step on, by the declarations there that live.
fn gather<M: Making>(
    alloc: Global,
    site: &Site<M>,
    behind: NameTable<Method>,
    groups: Groups,
) -> Mem<NameTable<Method>>
    ensures { (alive : List GivenMethod) (turns : ℕ) → length groups ≤ turns → ((name : List ℕ) → by_name groups name ≡ group_of (of_name name alive)) → ComesOut (record { made = M.made site.now.making.now; step = site.now.step.now; rest = site.now.rest.now; steps = site.now.steps.now; behind = by_name behind; alive = alive; turns = turns }) → IfOk result (λ methods. (name : List ℕ) → by_name methods name ≡ aim (record { made = M.made site.now.making.now; step = site.now.step.now; rest = site.now.rest.now; steps = site.now.steps.now; behind = by_name behind; alive = alive; turns = turns }) (suc turns) name) }
{
    let mut methods = behind;
    let mut left = groups;
    let mut waiting = Vec::new(alloc);
    let mut hand = take_any(&mut left);
    while let Some(entry) = hand {
        hand = turn(alloc, site, &mut methods, &mut left, &mut waiting, entry)?;
    }
    Ok(methods)
}

// Gathers the method of a name, unless it takes over that of another which is left: then the name waits, and the other is next.
fn turn<M: Making>(
    alloc: Global,
    site: &Site<M>,
    methods: &mut NameTable<Method>,
    left: &mut Groups,
    waiting: &mut Vec<Entry>,
    entry: Entry,
) -> Mem<Option<Entry>>
    ensures holds { (task : Task) → task.made ≡ M.made site.now.making.now → task.step ≡ site.now.step.now → task.rest ≡ site.now.rest.now → task.steps ≡ site.now.steps.now → ComesOut task → Holds task methods.old left.old (waiting.old.items ++ entry ∷ []) → IfOk result (λ next. Holds task methods.new left.new (waiting.new.items ++ option_to_list next)) }
    ensures ends { IfOk result (λ next. next ≡ None → length left.new + length waiting.new.items ≡ 0) }
    ensures less { IfOk result (λ next. 2 * length left.new + length (waiting.new.items ++ option_to_list next) < 2 * length left.old + length (waiting.old.items ++ entry ∷ [])) }
{
    match take_wanted(left, entry.1.as_slice()) {
        Some(next) => {
            waiting.push(entry)?;
            Ok(Some(next))
        }
        None => {
            finish(alloc, site, methods, entry)?;
            Ok(next_entry(waiting, left))
        }
    }
}

// Takes the last that waits, or else some that is left.
fn next_entry(waiting: &mut Vec<Entry>, left: &mut Groups) -> Option<Entry>
    ensures none { IfNone result (length left.old + length waiting.old.items ≡ 0) }
    ensures holds { (task : Task) (methods : List (List ℕ × Method)) → Holds task methods left.old waiting.old.items → Holds task methods left.new (waiting.new.items ++ option_to_list result) }
    ensures count { length left.new + length (waiting.new.items ++ option_to_list result) ≡ length left.old + length waiting.old.items }
    ensures fewer { length left.new ≤ length left.old }
{
    match waiting.pop() {
        Some(entry) => Some(entry),
        None => take_any(left),
    }
}

// Puts the method of a name that its declarations give.
fn finish<M: Making>(
    alloc: Global,
    site: &Site<M>,
    methods: &mut NameTable<Method>,
    entry: Entry,
) -> Mem<()>
    ensures { OnOk result ((other : List ℕ) → by_name methods.new other ≡ (if same_word entry.0 other then with_all site.now.step.now (elsewhere (M.made site.now.making.now) site.now.rest.now (by_name methods.old) entry.0) (elsewhere (M.made site.now.making.now) site.now.steps.now (by_name methods.old)) None entry.1 else by_name methods.old other)) }
{
    let (name, group) = entry;
    let method = with_all(alloc, site, methods, &name, group)?;
    methods.set(name, method)
}

// The method of a name with all its declarations.
fn with_all<M: Making>(
    alloc: Global,
    site: &Site<M>,
    methods: &mut NameTable<Method>,
    name: &Text,
    group: Seq<GivenMethod>,
) -> Mem<Option<Method>>
    ensures method { IfOk result (λ method. method ≡ with_all site.now.step.now (elsewhere (M.made site.now.making.now) site.now.rest.now (by_name methods.old) name.now) (elsewhere (M.made site.now.making.now) site.now.steps.now (by_name methods.old)) None group) }
    ensures others { OnOk result ((other : List ℕ) → same_word name.now other ≡ false → by_name methods.new other ≡ by_name methods.old other) }
{
    let mut so_far = None;
    for given in group.into_vec() {
        so_far = once_more(alloc, site, methods, name, so_far, given)?;
    }
    Ok(finished(so_far))
}

// The method as it stands, if there is one.
fn finished(method: Option<Growing>) -> Option<Method>
    ensures { result ≡ method }
{
    match method {
        Some(method) => Some(method.into_method()),
        None => None,
    }
}

// The method of a name with one more declaration.
fn once_more<M: Making>(
    alloc: Global,
    site: &Site<M>,
    methods: &mut NameTable<Method>,
    name: &Text,
    so_far: Option<Growing>,
    given: GivenMethod,
) -> Mem<Option<Growing>>
    ensures method { IfOk result (λ method. method ≡ once_more site.now.step.now (elsewhere (M.made site.now.making.now) site.now.rest.now (by_name methods.old) name.now) (elsewhere (M.made site.now.making.now) site.now.steps.now (by_name methods.old)) so_far given) }
    ensures kept { IfOk result (λ method. method ≡ None → by_name methods.new ≡ by_name methods.old) }
    ensures others { OnOk result ((other : List ℕ) → same_word name.now other ≡ false → by_name methods.new other ≡ by_name methods.old other) }
{
    match so_far {
        Some(method) => Ok(Some(method.with(alloc, site.step, given)?)),
        None => first(alloc, site, methods, name, given),
    }
}

// The method of a name with the first declaration.
fn first<M: Making>(
    alloc: Global,
    site: &Site<M>,
    methods: &mut NameTable<Method>,
    name: &Text,
    given: GivenMethod,
) -> Mem<Option<Growing>>
    ensures method { IfOk result (λ method. method ≡ once_more site.now.step.now (elsewhere (M.made site.now.making.now) site.now.rest.now (by_name methods.old) name.now) (elsewhere (M.made site.now.making.now) site.now.steps.now (by_name methods.old)) None given) }
    ensures kept { IfOk result (λ method. method ≡ None → by_name methods.new ≡ by_name methods.old) }
    ensures others { OnOk result ((other : List ℕ) → same_word name.now other ≡ false → by_name methods.new other ≡ by_name methods.old other) }
{
    let GivenMethod {
        name: _,
        visible,
        what,
    } = given;
    match what {
        What::Whole(overloads) => {
            let method = Growing::whole(alloc, site.step, visible, overloads)?;
            Ok(Some(method))
        }
        What::Further(overloads) => {
            let others = take_overloads(alloc, site.making, site.rest, methods, name)?;
            let method = Growing::further(alloc, site.step, visible, overloads, others)?;
            Ok(Some(method))
        }
        What::AliasOf(old) => {
            let found = copy_found(alloc, site.making, site.steps, methods, &old)?;
            Ok(growing(found))
        }
    }
}

// The method, to which more may be put.
fn growing(method: Option<Method>) -> Option<Growing>
    ensures { result ≡ method }
{
    match method {
        Some(method) => Some(Growing::of(method)),
        None => None,
    }
}
