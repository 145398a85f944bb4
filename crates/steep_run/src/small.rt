//! Which trees of signatures are small: classes with methods that take Integers.

ghost use Rattle.std.specs.Prelude.{◌≡◌, ◌&&◌, ◌||◌, not, IfOk};
ghost use Rattle.std.specs.Option.{option_map};
ghost use Rattle.std.specs.List.{list_all};
ghost use Rattle.steep_run.specs.Small as small;
ghost use Rattle.steep_run.specs.Words.{is_upper, is_digit, begins, is_interface_name};

use crate::distinct::{has_distinct_classes, have_distinct_methods};
use rbs_lexer::is_word;
use rbs_tree::{Decl, Member, MethodType, Param, Side, Ty, TypeName};
use src_text::{Mem, Seq, Text};
use std::alloc::Global;

/// Whether a tree is small: its declarations are classes of the small form, and no name stands twice.
pub fn is_small(alloc: Global, tree: &[Decl]) -> Mem<bool>
    ensures { IfOk result (λ is. is ≡ small.is_small tree.now) }
{
    if !are_small_classes(tree) {
        return Ok(false);
    }
    if !has_distinct_classes(alloc, tree)? {
        return Ok(false);
    }
    have_distinct_methods(alloc, tree)
}

// Whether all declarations are classes of the small form. Whether a name stands twice isn't looked at.
fn are_small_classes(tree: &[Decl]) -> bool
    ensures { result ≡ list_all small.is_small_class tree.now }
{
    tree.iter().all(|decl| is_small_class(decl))
}

// The word of a name that is one word without `::` before it.
fn word_of(name: &TypeName) -> Option<&str>
    ensures { option_map (λ word. word.now) result ≡ small.word_of name.now }
{
    if name.absolute {
        return None;
    }
    lone_word(name.path.as_slice())
}

/// The word that alone is a path, if it is one word.
pub fn lone_word(path: &[Text]) -> Option<&str>
    ensures { option_map (λ word. word.now) result ≡ small.lone_word path.now }
{
    match path {
        [word] => Some(word.as_str()),
        _ => None,
    }
}

/// The one word that names a declaration that is a class.
pub fn class_word(decl: &Decl) -> Option<&str>
    ensures { option_map (λ word. word.now) result ≡ small.class_word decl.now }
{
    match decl {
        Decl::Class { name, .. } => word_of(name),
        _ => None,
    }
}

/// The name of a member that is a method.
pub fn method_name(member: &Member) -> Option<&str>
    ensures { option_map (λ word. word.now) result ≡ small.method_name member.now }
{
    match member {
        Member::Def { name, .. } => Some(name.as_str()),
        _ => None,
    }
}

fn is_small_class(decl: &Decl) -> bool
    ensures { result ≡ small.is_small_class decl.now }
{
    match decl {
        Decl::Class {
            name,
            params,
            superclass,
            members,
        } => {
            word_of(name).is_some()
                && is_nil(params)
                && superclass.is_none()
                && are_small_members(members.as_slice())
        }
        _ => false,
    }
}

fn are_small_members(members: &[Member]) -> bool
    ensures { result ≡ list_all small.is_small_member members.now }
{
    members.iter().all(|member| is_small_member(member))
}

fn is_small_member(member: &Member) -> bool
    ensures { result ≡ small.is_small_member member.now }
{
    match member {
        Member::Def {
            name,
            side,
            public,
            overloads,
            more,
            ..
        } => {
            is_method_name(name.as_str())
                && is_of_instances(*side)
                && public.is_none()
                && is_small_overloads(overloads.as_slice())
                && !*more
        }
        _ => false,
    }
}

fn is_of_instances(side: Side) -> bool
    ensures { result ≡ small.is_of_instances side }
{
    match side {
        Side::Instance => true,
        Side::Singleton | Side::Both => false,
    }
}

// Whether a method may have the name.
fn is_method_name(name: &str) -> bool
    ensures { result ≡ small.is_method_name name.now }
{
    is_word(name)
        && !begins_with_digit(name.as_bytes())
        && !begins_as_type(name.as_bytes())
        && name != "initialize"
}

fn begins_with_digit(word: &[u8]) -> bool
    ensures { result ≡ begins is_digit word.now }
{
    match word {
        [] => false,
        [first, ..] => first.is_ascii_digit(),
    }
}

// Whether a word begins as the name of a class or an interface.
fn begins_as_type(word: &[u8]) -> bool
    ensures { result ≡ small.begins_as_type word.now }
{
    match word {
        [b'_', others @ ..] => begins_upper(others),
        _ => begins_upper(word),
    }
}

fn begins_upper(word: &[u8]) -> bool
    ensures { result ≡ begins is_upper word.now }
{
    match word {
        [] => false,
        [first, ..] => first.is_ascii_uppercase(),
    }
}

fn is_small_overloads(overloads: &[MethodType]) -> bool
    ensures { result ≡ small.is_small_overloads overloads.now }
{
    match overloads {
        [overload] => is_small_overload(overload),
        _ => false,
    }
}

fn is_small_overload(method: &MethodType) -> bool
    ensures { result ≡ small.is_small_overload method.now }
{
    is_nil(&method.vars)
        && has_required_alone(method)
        && take_integers(method.required.as_slice())
        && class_of(&method.result).is_some()
}

/// Whether there are no parameters but required positional ones, and no block.
pub fn has_required_alone(method: &MethodType) -> bool
    ensures { result ≡ small.has_required_alone method.now }
{
    is_nil(&method.optional)
        && method.rest.is_none()
        && is_nil(&method.trailing)
        && is_nil(&method.keywords)
        && method.rest_keywords.is_none()
        && method.block.is_none()
}

fn take_integers(parameters: &[Param]) -> bool
    ensures { result ≡ list_all small.takes_integer parameters.now }
{
    parameters.iter().all(|parameter| is_integer(&parameter.ty))
}

fn is_integer(ty: &Ty) -> bool
    ensures { result ≡ small.is_integer ty.now }
{
    match class_of(ty) {
        Some(class) => class == "Integer",
        None => false,
    }
}

// The word of a type that is an instance of a class named by one word, without arguments.
fn class_of(ty: &Ty) -> Option<&str>
    ensures { option_map (λ word. word.now) result ≡ small.class_of ty.now }
{
    match ty {
        Ty::Instance(name, args) => { if is_nil(args) { word_of(name) } else { None } }
        _ => None,
    }
}

/// Whether a list has no items.
pub fn is_nil<T>(list: &Seq<T>) -> bool
    ensures { result ≡ small.is_nil list.now }
{
    match list.as_slice() {
        [] => true,
        _ => false,
    }
}
