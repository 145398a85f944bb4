ghost use Rattle.std.specs.Prelude.{◌≡◌, [], IfOk};
ghost use Rattle.sig_rules.specs.Instances.{is_in, numbered, free_name};
ghost use Rattle.type_instances.specs.Variables.{outer, taken};

use crate::variables::{is_among, stands_in_method, stands_in_some};
use rbs_tree::{MethodType, Ty};
use src_text::{Mem, NoMemory, Text};
use std::alloc::Global;

/// Whether a word is one of the names around a method type, which are given as types, whose variables they are, and as further names.
pub fn is_outer(types: &[Ty], names: &[Text], word: &Text) -> bool
    ensures { result ≡ is_in (outer types.now names.now) word.now }
{
    stands_in_some(types, word) || is_among(names, word)
}

/// The name with the least number from 1 on that is none of the names around a method type and doesn't stand in it.
pub fn free_name(
    alloc: Global,
    types: &[Ty],
    names: &[Text],
    method: &MethodType,
    var: &Text,
) -> Mem<Text>
    ensures { IfOk result
        (λ name. name ≡ free_name (taken (outer types.now names.now) method.now) var.now) }
{
    for number in 1..u64::MAX {
        let name = numbered(alloc, var, number)?;
        if !is_taken(types, names, method, &name) {
            return Ok(name);
        }
    }
    Err(NoMemory)
}

// Whether a word is one of the names around a method type, or stands in it.
fn is_taken(types: &[Ty], names: &[Text], method: &MethodType, word: &Text) -> bool
    ensures { result ≡ is_in (taken (outer types.now names.now) method.now) word.now }
{
    is_outer(types, names, word) || is_in_method(method, word)
}

// Whether a word is one of the variables of a method type, or stands in it.
fn is_in_method(method: &MethodType, word: &Text) -> bool
    ensures { result ≡ is_in (taken [] method.now) word.now }
{
    is_among(method.vars.as_slice(), word) || stands_in_method(method, word)
}

// A name and a number.
fn numbered(alloc: Global, name: &Text, number: u64) -> Mem<Text>
    ensures { IfOk result (λ text. text ≡ numbered name.now number) }
{
    let name = name.as_str();
    Ok(Text::from_string(format!(in alloc; "{name}{number}")?))
}
