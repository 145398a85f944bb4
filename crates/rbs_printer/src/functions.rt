ghost use Rattle.std.specs.Prelude.{◌≡◌, ◌++◌, OnOk, IfOk, false, map, option_map};
ghost use Rattle.rbs_printer.specs.Printed as spec;
ghost use Rattle.rbs_printer.specs.Lists.{continued, has_begun};

use crate::level::Level;
use crate::types::{any, key, placed};
use crate::words;
use rbs_tree::{BlockType, Keyword, MethodType, Param};
use src_text::{Boxed, Mem, Text};
use std::alloc::Global;

/// Prints a method type; answers whether a `|` or `&` behind it would be read as the name of a method.
#[cycle(printing)]
pub fn function(alloc: Global, out: &mut Text, m: &MethodType) -> Mem<bool>
    ensures text { OnOk result (out.new ≡ out.old ++ (spec.printed_method m.now).text) }
    ensures leads { IfOk result (λ leads. leads ≡ (spec.printed_method m.now).leads) }
{
    variables(out, m.vars.as_slice())?;
    out.push_str("(")?;
    params(alloc, out, m)?;
    out.push_str(")")?;
    block(alloc, out, &m.block)?;
    out.push_str(" -> ")?;
    placed(alloc, out, Level::Optional, false, &m.result)
}

// Prints the variables of a method type.
fn variables(out: &mut Text, vars: &[Text]) -> Mem<()>
    ensures { OnOk result (out.new ≡ out.old ++ spec.vars_text vars.now) }
{
    match vars {
        [] => Ok(()),
        _ => {
            out.push_str("[")?;
            words::separated(out, ", ", vars)?;
            out.push_str("] ")
        }
    }
}

// Prints the parameters of all sorts.
#[cycle(printing)]
fn params(alloc: Global, out: &mut Text, m: &MethodType) -> Mem<()>
    ensures { OnOk result (out.new ≡ out.old ++ spec.params_text m.now) }
{
    let begun = positional(alloc, out, false, "", m.required.as_slice())?;
    let begun = positional(alloc, out, begun, "?", m.optional.as_slice())?;
    let begun = rest(alloc, out, begun, "*", &m.rest)?;
    let begun = positional(alloc, out, begun, "", m.trailing.as_slice())?;
    let begun = keywords(alloc, out, begun, m.keywords.as_slice())?;
    rest(alloc, out, begun, "**", &m.rest_keywords)?;
    Ok(())
}

// Prints positional parameters with a sign before each; answers whether the list of parameters has begun.
#[cycle(printing)]
fn positional(alloc: Global, out: &mut Text, begun: bool, sign: &str, params: &[Param]) -> Mem<bool>
    ensures text { OnOk result (out.new ≡ out.old ++ continued begun (spec.signed sign.now (map spec.printed_param params.now))) }
    ensures begun { IfOk result (λ now. now ≡ has_begun begun (spec.signed sign.now (map spec.printed_param params.now))) }
{
    let mut begun = begun;
    for param in params {
        words::comma(out, begun)?;
        signed(alloc, out, sign, param)?;
        begun = true;
    }
    Ok(begun)
}

// Prints the rest parameter behind its sign, if there is one; answers as `positional`.
#[cycle(printing)]
fn rest(alloc: Global, out: &mut Text, begun: bool, sign: &str, param: &Option<Param>) -> Mem<bool>
    ensures text { OnOk result (out.new ≡ out.old ++ continued begun (spec.signed_one sign.now (option_map spec.printed_param param.now))) }
    ensures begun { IfOk result (λ now. now ≡ has_begun begun (spec.signed_one sign.now (option_map spec.printed_param param.now))) }
{
    match param {
        None => Ok(begun),
        Some(param) => {
            words::comma(out, begun)?;
            signed(alloc, out, sign, param)?;
            Ok(true)
        }
    }
}

// Prints a positional parameter behind its sign.
#[cycle(printing)]
fn signed(alloc: Global, out: &mut Text, sign: &str, param: &Param) -> Mem<()>
    ensures { OnOk result (out.new ≡ out.old ++ (sign.now ++ spec.printed_param param.now)) }
{
    out.push_str(sign)?;
    any(alloc, out, &param.ty)?;
    param_name(out, &param.name)
}

// Prints a parameter's name behind its type.
fn param_name(out: &mut Text, name: &Option<Text>) -> Mem<()>
    ensures { OnOk result (out.new ≡ out.old ++ spec.param_name name.now) }
{
    match name {
        None => Ok(()),
        Some(name) => {
            out.push_str(" ")?;
            out.push_str(name.as_str())
        }
    }
}

// Prints keyword parameters; answers as `positional`.
#[cycle(printing)]
fn keywords(alloc: Global, out: &mut Text, begun: bool, keywords: &[Keyword]) -> Mem<bool>
    ensures text { OnOk result (out.new ≡ out.old ++ continued begun (map spec.printed_keyword keywords.now)) }
    ensures begun { IfOk result (λ now. now ≡ has_begun begun (map spec.printed_keyword keywords.now)) }
{
    let mut begun = begun;
    for keyword in keywords {
        words::comma(out, begun)?;
        one_keyword(alloc, out, keyword)?;
        begun = true;
    }
    Ok(begun)
}

#[cycle(printing)]
fn one_keyword(alloc: Global, out: &mut Text, keyword: &Keyword) -> Mem<()>
    ensures { OnOk result (out.new ≡ out.old ++ spec.printed_keyword keyword.now) }
{
    out.push_str(mark(keyword.required))?;
    key(alloc, out, &keyword.key, &keyword.ty)
}

// What stands before what may be left out.
fn mark(required: bool) -> &'static str
    ensures { result.now ≡ spec.mark required }
{
    if required { "" } else { "?" }
}

#[cycle(printing)]
fn block(alloc: Global, out: &mut Text, block: &Option<Boxed<BlockType>>) -> Mem<()>
    ensures { OnOk result (out.new ≡ out.old ++ spec.block_text (option_map spec.printed_block block.now)) }
{
    match block {
        None => Ok(()),
        Some(block) => {
            out.push_str(" ")?;
            some_block(alloc, out, block.get())
        }
    }
}

#[cycle(printing)]
fn some_block(alloc: Global, out: &mut Text, block: &BlockType) -> Mem<()>
    ensures { OnOk result (out.new ≡ out.old ++ spec.printed_block block.now) }
{
    out.push_str(mark(block.required))?;
    out.push_str("{ ")?;
    function(alloc, out, &block.fun)?;
    out.push_str(" }")
}
