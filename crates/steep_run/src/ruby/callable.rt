//! What calls of a method are judged by.

ghost use Rattle.std.specs.Prelude.{◌≡◌, ◌&&◌};
ghost use Rattle.std.specs.Option.{option_map};
ghost use Rattle.std.specs.List.{list_all};
ghost use Rattle.steep_run.specs.Calls as calls;
ghost use Rattle.steep_run.specs.Reading.{callable_of, is_plain_alone};

use crate::small::{has_required_alone, is_nil, lone_word};
use rbs_tree::{MethodType, Param, Ty};
use sig_rules::{Method, Visibility};

/// What calls of a method are judged by.
#[derive(Clone, Copy, Debug)]
pub enum Callable {
    /// It is private, as if there were none.
    Private,
    /// It wants so many Integers, and nothing else.
    Plain(u64),
    /// It wants other arguments.
    Other,
}

/// What calls of a method are judged by.
pub fn callable_of(method: &Method) -> Callable
    ensures { result ≡ callable_of method.now }
{
    if !is_public(method.visible) {
        return Callable::Private;
    }
    match integers_wanted(method.overloads.as_slice()) {
        Some(count) => Callable::Plain(count),
        None => Callable::Other,
    }
}

/// Whether a method is public, and plain for no arguments.
pub fn is_plain_alone(callable: Callable) -> bool
    ensures { result ≡ is_plain_alone callable }
{
    match callable {
        Callable::Plain(wanted) => wanted == 0,
        _ => false,
    }
}

fn is_public(visible: Visibility) -> bool
    ensures { result ≡ calls.is_public visible }
{
    match visible {
        Visibility::Public => true,
        Visibility::Private => false,
    }
}

// How many Integers the one overload wants, where there is one and it wants nothing else.
fn integers_wanted(overloads: &[MethodType]) -> Option<u64>
    ensures { result ≡ calls.integers_wanted overloads.now }
{
    match overloads {
        [overload] => integers_of(overload),
        _ => None,
    }
}

fn integers_of(overload: &MethodType) -> Option<u64>
    ensures { result ≡ calls.integers_of overload.now }
{
    if wants_integers_alone(overload) {
        Some(overload.required.len() as u64)
    } else {
        None
    }
}

fn wants_integers_alone(overload: &MethodType) -> bool
    ensures { result ≡ calls.wants_integers_alone overload.now }
{
    is_nil(&overload.vars)
        && has_required_alone(overload)
        && want_integers(overload.required.as_slice())
}

fn want_integers(parameters: &[Param]) -> bool
    ensures { result ≡ list_all calls.wants_integer parameters.now }
{
    parameters
        .iter()
        .all(|parameter| is_core_integer(&parameter.ty))
}

// Whether a type is `::Integer`.
fn is_core_integer(ty: &Ty) -> bool
    ensures { result ≡ calls.is_core_integer ty.now }
{
    match ty {
        Ty::Instance(name, args) => name.absolute
            && is_integer(lone_word(name.path.as_slice()))
            && is_nil(args),
        _ => false,
    }
}

fn is_integer(word: Option<&str>) -> bool
    ensures { result ≡ calls.is_integer (option_map (λ w. w.now) word.entry) }
{
    match word {
        Some(word) => word == "Integer",
        None => false,
    }
}
