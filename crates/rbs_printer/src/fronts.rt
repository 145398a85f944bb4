ghost use Rattle.std.specs.Prelude.{◌≡◌, map};
ghost use Rattle.rbs_printer.specs.Printed as spec;

use crate::level::{Front, Level, is_below};
use rbs_lexer::is_word;
use rbs_tree::{Ty, TypeName};
use src_text::Text;

/// Whether a type has to be between parentheses: where a level is wanted, and maybe behind `alias |` or `alias &`.
pub fn is_grouped(wanted: Level, behind: bool, ty: &Ty) -> bool
    ensures { result ≡ spec.is_grouped wanted behind (spec.printed ty.now) }
{
    is_below(level_of(ty), wanted) || behind && is_name(front_of(ty))
}

// The level at which a type stands in the grammar.
fn level_of(ty: &Ty) -> Level
    ensures { result ≡ (spec.printed ty.now).level }
{
    match ty {
        Ty::Union(_) => Level::Union,
        Ty::Inter(_) => Level::Inter,
        Ty::Optional(_) => Level::Optional,
        Ty::ProcOf(_) => Level::Optional,
        Ty::SymLit(name) => symbol_level(name.as_str()),
        _ => Level::Base,
    }
}

// A symbol that is a word would take a `?` behind it.
fn symbol_level(name: &str) -> Level
    ensures { result ≡ spec.symbol_level name.now }
{
    if is_word(name) {
        Level::Optional
    } else {
        Level::Base
    }
}

fn is_name(front: Front) -> bool
    ensures { result ≡ spec.is_name front }
{
    matches!(front, Front::Name)
}

// What a type's text begins with.
#[cycle(fronts)]
fn front_of(ty: &Ty) -> Front
    ensures { result ≡ (spec.printed ty.now).front }
{
    match ty {
        Ty::Instance(name, args) | Ty::Interface(name, args) | Ty::Alias(name, args) => {
            named_front(name, args.as_slice())
        }
        Ty::Singleton(_) => Front::Other,
        Ty::IntLit(value) => integer_front(*value),
        Ty::StrLit(_) => Front::Other,
        Ty::SymLit(_) => Front::Other,
        Ty::Union(tys) => parts_front(Level::Inter, tys.as_slice()),
        Ty::Inter(tys) => parts_front(Level::Optional, tys.as_slice()),
        Ty::Optional(inner) => optional_front(inner.get()),
        Ty::TupleOf(tys) => tuple_front(tys.as_slice()),
        Ty::RecordOf(_) => Front::Other,
        Ty::ProcOf(_) => Front::Name,
        _ => Front::Word,
    }
}

#[cycle(fronts)]
fn optional_front(inner: &Ty) -> Front
    ensures { result ≡ spec.optional_front (spec.printed inner.now) }
{
    if is_below(level_of(inner), Level::Base) {
        Front::Other
    } else {
        marked_front(front_of(inner))
    }
}

#[cycle(fronts)]
fn parts_front(wanted: Level, tys: &[Ty]) -> Front
    ensures { result ≡ spec.parts_front wanted (map spec.printed tys.now) }
{
    match tys {
        [] => Front::Other,
        [first, ..] => {
            if is_below(level_of(first), wanted) {
                Front::Other
            } else {
                front_of(first)
            }
        }
    }
}

// A word and its `?` are one name.
fn marked_front(front: Front) -> Front
    ensures { result ≡ spec.marked_front front }
{
    match front {
        Front::Other => Front::Other,
        _ => Front::Name,
    }
}

fn integer_front(value: i128) -> Front
    ensures { result ≡ spec.integer_front value }
{
    if value < 0 { Front::Other } else { Front::Name }
}

fn tuple_front(tys: &[Ty]) -> Front
    ensures { result ≡ spec.tuple_front (map spec.printed tys.now) }
{
    match tys {
        [] => Front::Name,
        _ => Front::Other,
    }
}

fn named_front(name: &TypeName, args: &[Ty]) -> Front
    ensures { result ≡ spec.named_front name.now (map spec.printed args.now) }
{
    match args {
        [] => {
            if is_lone(name) {
                Front::Word
            } else {
                Front::Other
            }
        }
        _ => Front::Other,
    }
}

// Whether a name is one word.
fn is_lone(name: &TypeName) -> bool
    ensures { result ≡ spec.is_lone name.now }
{
    !name.absolute && has_one(name.path.as_slice())
}

fn has_one(words: &[Text]) -> bool
    ensures { result ≡ spec.has_one words.now }
{
    match words {
        [_] => true,
        _ => false,
    }
}

/// Whether a `|` or `&` behind the name of a type alias is read as the name of a method.
pub fn alias_leads(name: &TypeName, args: &[Ty], behind: bool) -> bool
    ensures { result ≡ spec.alias_leads name.now (map spec.printed args.now) behind }
{
    match args {
        [] => ends_in_alias(name.path.as_slice()) && !(behind && is_lone(name)),
        _ => false,
    }
}

fn ends_in_alias(words: &[Text]) -> bool
    ensures { result ≡ spec.ends_in_alias words.now }
{
    match words {
        [.., last] => last.as_str() == "alias",
        [] => false,
    }
}
