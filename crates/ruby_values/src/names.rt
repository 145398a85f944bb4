//! Names of methods, classes and modules.

ghost use Rattle.std.specs.Prelude.{◌≡◌, IfOk};
ghost use Rattle.std.specs.List.{flat_map};
ghost use Rattle.ruby_values.specs.declared.value.Value.TheVariants as value;
ghost use Rattle.ruby_values.specs.Names as spec;

use crate::places::{kind_at, leaf, text_at};
use crate::value::{PlacedPath, Value};
use ruby_lexer::{RubyKind, RubyToken, Sign};
use ruby_tree::{ConstPath, MethodName};
use src_text::{Boxed, Mem, Seq, Span, Text};
use std::alloc::Global;

// The texts of tokens, one behind the other.
fn texts_of(alloc: Global, tokens: &[RubyToken], leaves: &[usize]) -> Mem<Text>
    ensures { IfOk result (λ text. text ≡ spec.texts_of tokens.now leaves.now) }
{
    let mut all = Text::new(alloc);
    for place in leaves {
        let text = text_at(alloc, tokens, *place)?;
        all.push_str(text.as_str())?;
    }
    Ok(all)
}

fn name_at(alloc: Global, tokens: &[RubyToken], at: Span, leaves: &[usize]) -> Mem<MethodName>
    ensures { IfOk result (λ name. name ≡ spec.name_at tokens.now at leaves.now) }
{
    let name = texts_of(alloc, tokens, leaves)?;
    Ok(MethodName { name, at })
}

/// A method's name. Of a symbol it has the characters, and the span of all of it.
pub fn method_name(alloc: Global, tokens: &[RubyToken], at: Span, leaves: &[usize]) -> Mem<Value>
    ensures { IfOk result (λ made. made ≡ value.Name (spec.name_at tokens.now at leaves.now)) }
{
    let name = name_at(alloc, tokens, at, leaves)?;
    Ok(Value::Name(name))
}

/// The name of a setter.
pub fn setter_name(alloc: Global, tokens: &[RubyToken], at: Span, leaves: &[usize]) -> Mem<Value>
    ensures { IfOk result (λ made. made ≡ value.Name (spec.setter_name tokens.now at leaves.now)) }
{
    let name = name_at(alloc, tokens, at, leaves)?;
    Ok(Value::Name(setter(name)?))
}

/// The name of a class or a module.
pub fn path(alloc: Global, tokens: &[RubyToken], at: Span, leaves: &[usize]) -> Mem<Value>
    ensures { IfOk result (λ made. made ≡ value.Path (spec.path_of tokens.now at leaves.now)) }
{
    let words = constants_among(alloc, tokens, leaves)?;
    let absolute = begins_absolute(kind_at(tokens, leaf(leaves, 0)));
    let placed = PlacedPath {
        path: ConstPath { absolute, words },
        at,
    };
    Ok(Value::Path(Boxed::new(alloc, placed)?))
}

fn constants_among(alloc: Global, tokens: &[RubyToken], leaves: &[usize]) -> Mem<Seq<Text>>
    ensures { IfOk result (λ words. words ≡ flat_map (spec.constant_at tokens.now) leaves.now) }
{
    let mut words = Seq::new(alloc);
    for place in leaves {
        if is_constant(kind_at(tokens, *place)) {
            words.push(text_at(alloc, tokens, *place)?)?;
        }
    }
    Ok(words)
}

fn is_constant(kind: RubyKind) -> bool
    ensures { result ≡ spec.is_constant kind }
{
    matches!(kind, RubyKind::Constant | RubyKind::NamedConstant)
}

fn begins_absolute(kind: RubyKind) -> bool
    ensures { result ≡ spec.begins_absolute kind }
{
    matches!(kind, RubyKind::Prefix(Sign::ColonColon))
}

/// The name of the method that sets what a method gives.
pub fn setter(method: MethodName) -> Mem<MethodName>
    ensures { IfOk result (λ made. made ≡ spec.setter method) }
{
    let MethodName { mut name, at } = method;
    name.push_str("=")?;
    Ok(MethodName { name, at })
}
