ghost use Rattle.std.specs.Prelude.{◌≡◌, ◌||◌, ◌&&◌, not, ℕ, List, true, [], ◌∷◌, IfOk, OnOk};
ghost use Rattle.std.specs.List.{list_any};
ghost use Rattle.std.specs.Option.{is_some};
ghost use Rattle.sig_rules.specs.declared.given.GivenMethod.{GivenMethod};
ghost use Rattle.sig_rules.specs.declared.method.Method.{Method};
ghost use Rattle.sig_rules.specs.Methods.{same_word};
ghost use Rattle.sig_rules.specs.Worlds.{by_name};
ghost use Rattle.line_members.specs.Along.{is_given, is_wanted, or_behind, wants};

use method_steps::{NameTable, copy_method};
use sig_rules::{GivenMethod, Method, Shared, What};
use src_text::{Mem, Seq, Text};
use std::alloc::Global;

/// Some names.
pub(crate) type NameSet = NameTable<()>;

/// The names of which a method is given.
pub(crate) fn given_names(alloc: Global, given: &[GivenMethod]) -> Mem<NameSet>
    ensures { IfOk result (λ names. (name : List ℕ) → is_some (by_name names name) ≡ is_given given.now name) }
{
    let mut names = NameTable::new(alloc);
    let mut rest = given;
    while let [method, more @ ..] = rest {
        note(&mut names, &method.name)?;
        rest = more;
    }
    Ok(names)
}

/// The same in a list, which is quicker for a few.
pub(crate) fn given_words(alloc: Global, given: &[GivenMethod]) -> Mem<Seq<(Text, ())>>
    ensures { IfOk result (λ names. (name : List ℕ) → is_some (by_name names name) ≡ is_given given.now name) }
{
    let mut names = Seq::new(alloc);
    let mut rest = given;
    while let [method, more @ ..] = rest {
        add(&mut names, &method.name)?;
        rest = more;
    }
    Ok(names)
}

// One name more in a list.
fn add(names: &mut Seq<(Text, ())>, name: &Text) -> Mem<()>
    ensures { OnOk result ((other : List ℕ) → is_some (by_name names.new other) ≡ (is_some (by_name names.old other) || same_word other name.now)) }
{
    let word = name.clone()?;
    names.push((word, ()))
}

/// The names of which what is found behind a step may count for the methods that are given there.
pub(crate) fn wanted_names(alloc: Global, given: &[GivenMethod]) -> Mem<NameSet>
    ensures { IfOk result (λ names. (name : List ℕ) → is_some (by_name names name) ≡ is_wanted given.now name) }
{
    let mut names = NameTable::new(alloc);
    let mut rest = given;
    while let [method, more @ ..] = rest {
        note_wanted(&mut names, method)?;
        rest = more;
    }
    Ok(names)
}

// Notes the names of which what is found behind a step may count for a method that is given there.
fn note_wanted(names: &mut NameSet, method: &GivenMethod) -> Mem<()>
    ensures { OnOk result ((name : List ℕ) → is_some (by_name names.new name) ≡ (is_some (by_name names.old name) || wants name method.now.name method.now.what)) }
{
    match &method.what {
        What::Whole(_) => Ok(()),
        What::Further(_) => note(names, &method.name),
        What::AliasOf(old) => {
            note(names, &method.name)?;
            note(names, old)
        }
    }
}

// One name more.
fn note(names: &mut NameSet, name: &Text) -> Mem<()>
    ensures { OnOk result ((other : List ℕ) → is_some (by_name names.new other) ≡ (is_some (by_name names.old other) || same_word other name.now)) }
{
    let word = name.clone()?;
    names.put(word, ())
}

/// Copies of the methods of some names.
pub(crate) fn copies_of(
    alloc: Global,
    names: &NameSet,
    methods: &[Shared<(Text, Method)>],
) -> Mem<NameTable<Method>>
    ensures { IfOk result (λ copies. (name : List ℕ) → is_some (by_name names.now name) ≡ true → by_name copies name ≡ by_name methods.now name) }
{
    let mut copies = NameTable::new(alloc);
    if names.len() == 0 {
        return Ok(copies);
    }
    let mut rest = methods;
    while let [entry, more @ ..] = rest {
        put_copy(alloc, names, &mut copies, entry.get())?;
        rest = more;
    }
    Ok(copies)
}

// Puts a copy of a method, if its name is among these and the table has none of it.
fn put_copy(
    alloc: Global,
    names: &NameSet,
    copies: &mut NameTable<Method>,
    entry: &(Text, Method),
) -> Mem<()>
    ensures { OnOk result ((name : List ℕ) (rest : List (List ℕ × Method)) → is_some (by_name names.now name) ≡ true → or_behind (by_name copies.new name) (by_name rest name) ≡ or_behind (by_name copies.old name) (by_name (entry.now ∷ rest) name)) }
{
    let (name, method) = entry;
    if !is_missing(names, copies, name) {
        return Ok(());
    }
    let word = name.clone()?;
    let copy = copy_method(alloc, method)?;
    copies.put(word, copy)
}

// Whether a name is among these, and the table has none of it.
fn is_missing(names: &NameSet, copies: &NameTable<Method>, name: &Text) -> bool
    ensures { result ≡ (is_some (by_name names.now name.now) && not (is_some (by_name copies.now name.now))) }
{
    names.has(name) && !copies.has(name)
}
