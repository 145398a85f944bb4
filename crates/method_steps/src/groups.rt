ghost use Rattle.std.specs.Prelude.{◌≡◌, ◌++◌, ◌+◌, ◌≤◌, ℕ, List, [], ◌∷◌, length, Some, None, IfOk, IfSome, IfNone, OnOk, if◌then◌else◌};
ghost use Rattle.std.specs.Option.{option_copied};
ghost use Rattle.sig_rules.specs.Methods.{of_name, same_word};
ghost use Rattle.sig_rules.specs.Worlds.{by_name};
ghost use Rattle.method_steps.specs.Gathering.{TakesOut, group_of, listed, wanted};

use crate::name_table::NameTable;
use sig_rules::{GivenMethod, What};
use src_text::{Mem, Seq, Text};
use std::alloc::Global;

/// Names with their declarations.
pub(crate) type Groups = NameTable<Seq<GivenMethod>>;

/// A name with its declarations.
pub(crate) type Entry = (Text, Seq<GivenMethod>);

/// Names with their declarations, those of a name in their order.
pub(crate) fn grouped(alloc: Global, given: Seq<GivenMethod>) -> Mem<Groups>
    ensures groups { IfOk result (λ groups. (name : List ℕ) → by_name groups name ≡ group_of (of_name name given)) }
    ensures few { IfOk result (λ groups. length groups ≤ length given) }
{
    let mut groups = NameTable::new(alloc);
    for method in given.into_vec() {
        add(alloc, &mut groups, method)?;
    }
    Ok(groups)
}

// Puts a declaration behind those of its name.
fn add(alloc: Global, groups: &mut Groups, method: GivenMethod) -> Mem<()>
    ensures groups { OnOk result ((other : List ℕ) → by_name groups.new other ≡ (if same_word method.name other then Some (listed (by_name groups.old method.name) ++ method ∷ []) else by_name groups.old other)) }
    ensures few { OnOk result (length groups.new ≤ length groups.old + 1) }
{
    let (name, mut group) = take_group(alloc, groups, &method.name)?;
    group.push(method)?;
    groups.put(name, group)
}

// A name with the declarations that it has so far.
fn take_group(alloc: Global, groups: &mut Groups, name: &Text) -> Mem<Entry>
    ensures named { IfOk result (λ entry. entry.0 ≡ name.now) }
    ensures group { IfOk result (λ entry. entry.1 ≡ listed (by_name groups.old name.now)) }
    ensures others { OnOk result ((other : List ℕ) → by_name groups.new other ≡ (if same_word name.now other then None else by_name groups.old other)) }
    ensures few { OnOk result (length groups.new ≤ length groups.old) }
{
    match groups.take(name) {
        Some(entry) => Ok(entry),
        None => Ok((name.clone()?, Seq::new(alloc))),
    }
}

/// Takes the name out of the table whose method the first of some declarations takes over, if it is there.
pub(crate) fn take_wanted(groups: &mut Groups, group: &[GivenMethod]) -> Option<Entry>
    ensures some { IfSome result (λ entry. wanted group.now ≡ Some entry.0) }
    ensures taken { IfSome result (λ entry. TakesOut groups.old groups.new entry) }
    ensures none { IfNone result ((old : List ℕ) → wanted group.now ≡ Some old → by_name groups.old old ≡ None) }
    ensures kept { IfNone result (groups.new ≡ groups.old) }
{
    match wanted(group) {
        Some(old) => groups.take(old),
        None => None,
    }
}

/// Takes some name out of the table, as long as there is one.
pub(crate) fn take_any(groups: &mut Groups) -> Option<Entry>
    ensures none { IfNone result (length groups.old ≡ 0) }
    ensures kept { IfNone result (groups.new ≡ groups.old) }
    ensures taken { IfSome result (λ entry. TakesOut groups.old groups.new entry) }
{
    groups.pop()
}

// The name whose method the first of some declarations takes over.
fn wanted(group: &[GivenMethod]) -> Option<&Text>
    ensures { option_copied result ≡ wanted group.now }
{
    match group {
        [first, ..] => match &first.what {
            What::AliasOf(old) => Some(old),
            _ => None,
        },
        [] => None,
    }
}
