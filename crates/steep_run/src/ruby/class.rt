//! The classes that a Ruby text calls.

ghost use Rattle.std.specs.Prelude.{◌≡◌, ◌&&◌, [], ℕ, List, true, false, codes, IfOk, OnOk};
ghost use Rattle.std.specs.Option.{option_copied, option_map, option_map_or, option_and_then};
ghost use Rattle.sig_rules.specs.declared.line.Kind.TheVariants.{Singleton};
ghost use Rattle.sig_rules.specs.Declarations.{full_name};
ghost use Rattle.sig_rules.specs.Methods.{method};
ghost use Rattle.sig_rules.specs.Names.{resolve};
ghost use Rattle.sig_rules.specs.Types.{sort, first_params};
ghost use Rattle.sig_rules.specs.Worlds.{by_name};
ghost use Rattle.steep_run.specs.Small.{is_nil};
ghost use Rattle.steep_run.specs.Words.{same_word};
ghost use Rattle.steep_run.specs.Calls as calls;
ghost use Rattle.steep_run.specs.Reading.{AreCalled, IsCalled, callable_of, found_or, or_private};

use super::callable::{Callable, callable_of, is_plain_alone};
use method_steps::NameTable;
use rbs_tree::TypeName;
use sig_rules::{Kind, Members, Method, Names, Shared, Sort};
use src_text::{Mem, Seq, Span, Text};
use std::alloc::Global;
use type_meaning::{first_params, sort};

/// What calls of the methods of a class's instances are judged by.
pub type MethodTable = NameTable<Callable>;

/// The classes that were called, by the words that name them.
pub type ClassTable = NameTable<MethodTable>;

/// Puts the class of a word into the table, if it isn't there and `new` of the word makes an object.
pub fn note_class<M: Members>(
    alloc: Global,
    members: &M,
    classes: &mut ClassTable,
    word: &Text,
) -> Mem<()>
    requires { AreCalled (M.all members.now) classes.old }
    ensures called { OnOk result (AreCalled (M.all members.now) classes.new) }
    ensures noted { OnOk result (IsCalled (M.all members.now) word.now (by_name classes.new word.now)) }
{
    if classes.has(word) {
        return Ok(());
    }
    match called(alloc, members, word)? {
        None => Ok(()),
        Some(methods) => classes.put(word.clone()?, methods),
    }
}

/// What calls of a method are judged by; one that isn't there is as a private one.
pub fn asked(methods: &MethodTable, name: &Text) -> Callable
    ensures { result ≡ or_private (by_name methods.now name.now) }
{
    match methods.get(name) {
        None => Callable::Private,
        Some(callable) => *callable,
    }
}

// What calls of the methods of a word's class are judged by, if `new` of the word makes an object.
fn called<M: Members>(alloc: Global, members: &M, word: &Text) -> Mem<Option<MethodTable>>
    ensures { IfOk result (IsCalled (M.all members.now) word.now) }
{
    let name = name_of(alloc, word)?;
    match class_made(members, &name) {
        None => Ok(None),
        Some(class) => {
            let methods = callables(alloc, methods_of(members, class, Kind::Instance))?;
            Ok(Some(methods))
        }
    }
}

// A name of one word, as it is written in a Ruby text.
fn name_of(alloc: Global, word: &Text) -> Mem<TypeName>
    ensures { IfOk result (λ name. name ≡ calls.name_of word.now) }
{
    let mut path = Seq::new(alloc);
    path.push(word.clone()?)?;
    Ok(TypeName {
        absolute: false,
        path,
        at: Span { start: 0, end: 0 },
    })
}

// The class of the object that `new` of a name makes, where nothing encloses it.
fn class_made<'m, M: Members>(members: &'m M, name: &TypeName) -> Option<&'m TypeName>
    ensures { option_copied result ≡ option_map full_name (option_and_then (calls.if_made_by_new (M.all members.now)) (resolve (M.all members.now) [] name.now)) }
{
    match members.resolve(&[], name) {
        None => None,
        Some(class) => {
            if is_made_by_new(members, class) {
                Some(class)
            } else {
                None
            }
        }
    }
}

// Whether a full name is of a class without type parameters, with a public `new` that is plain for no arguments.
fn is_made_by_new<M: Members>(members: &M, class: &TypeName) -> bool
    ensures { result ≡ calls.is_made_by_new (M.all members.now) class.now.path }
{
    if !is_class(sort(members, class)) {
        return false;
    }
    if !has_no_params(members, class) {
        return false;
    }
    has_plain_new(members, class)
}

// Whether a full name has no type parameters.
fn has_no_params<M: Members>(members: &M, class: &TypeName) -> bool
    ensures { result ≡ is_nil (first_params (M.all members.now) class.now.path) }
{
    match first_params(members, class) {
        [] => true,
        _ => false,
    }
}

fn is_class(sort: Sort) -> bool
    ensures { result ≡ calls.is_class sort }
{
    match sort {
        Sort::Class => true,
        _ => false,
    }
}

fn has_plain_new<M: Members>(members: &M, class: &TypeName) -> bool
    requires { calls.is_class (sort (M.all members.now) class.now.path) ≡ true }
    ensures { result ≡ option_map_or (calls.is_plain_for 0) (calls.public_method (M.all members.now) class.now.path Singleton (codes "new")) false }
{
    match method_named(methods_of(members, class, Kind::Singleton), "new") {
        None => false,
        Some(method) => is_plain_alone(callable_of(method)),
    }
}

// The methods of one side of a class.
fn methods_of<'m, M: Members>(
    members: &'m M,
    class: &TypeName,
    kind: Kind,
) -> &'m [Shared<(Text, Method)>]
    requires { calls.is_class (sort (M.all members.now) class.now.path) ≡ true }
    ensures { (name : List ℕ) → by_name result.now name ≡ method (M.all members.now) class.now.path kind name }
{
    match members.definition(class, kind) {
        Some(definition) => definition.methods.as_slice(),
        None => &[],
    }
}

// The first method of a name.
fn method_named<'m>(methods: &'m [Shared<(Text, Method)>], name: &str) -> Option<&'m Method>
    ensures { option_copied result ≡ by_name methods.now name.now }
{
    let mut rest = methods;
    while let [entry, more @ ..] = rest {
        let (other, method) = entry.get();
        if name == other.as_str() {
            return Some(method);
        }
        rest = more;
    }
    None
}

// For each name what calls of its first method are judged by.
fn callables(alloc: Global, methods: &[Shared<(Text, Method)>]) -> Mem<MethodTable>
    ensures { IfOk result (λ table. (name : List ℕ) → by_name table name ≡ option_map callable_of (by_name methods.now name)) }
{
    let mut table = NameTable::new(alloc);
    let mut rest = methods;
    while let [entry, more @ ..] = rest {
        let (name, method) = entry.get();
        add(&mut table, name, callable_of(method))?;
        rest = more;
    }
    Ok(table)
}

// Puts what calls of a method are judged by into the table, unless there is one of the name.
fn add(table: &mut MethodTable, name: &Text, callable: Callable) -> Mem<()>
    ensures { OnOk result ((other : List ℕ) → by_name table.new other ≡ found_or (by_name table.old other) (same_word name.now other) callable) }
{
    if table.has(name) {
        return Ok(());
    }
    table.put(name.clone()?, callable)
}
