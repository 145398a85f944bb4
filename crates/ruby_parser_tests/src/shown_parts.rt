use crate::pieces::{begin, close, local, local_or_none, name, open, path, quoted, taken, word};
use crate::shown::{begun, node, nodes};
use ruby_tree::{Arm, Item, ListTarget, Local, Node, Param, Part, Rescue, Target, Variable, When};
use src_text::{Boxed, Mem, Span, Text};

#[cycle(show)]
pub fn parts(out: &mut String, parts: &[Part]) -> Mem<()> {
    for one in parts {
        part(out, one)?;
    }
    Ok(())
}

#[cycle(show)]
fn part(out: &mut String, part: &Part) -> Mem<()> {
    match part {
        Part::Text(text) => quoted(out, text),
        Part::Code(code) => node(out, code),
    }
}

#[cycle(show)]
pub fn items(out: &mut String, items: &[Item]) -> Mem<()> {
    for one in items {
        item(out, one)?;
    }
    Ok(())
}

// Items in brackets.
#[cycle(show)]
pub fn item_list(out: &mut String, all: &[Item]) -> Mem<()> {
    open(out, "")?;
    items(out, all)?;
    close(out)
}

#[cycle(show)]
fn item(out: &mut String, item: &Item) -> Mem<()> {
    match item {
        Item::Value(value) => node(out, value),
        Item::Splat(value) => begun(out, "splat", value),
        Item::DoubleSplat(value) => begun(out, "double_splat", value),
        Item::Label { key, at, value } => label(out, key, *at, value),
        Item::Pair { key, value } => {
            open(out, "pair")?;
            node(out, key)?;
            node(out, value)?;
            close(out)
        }
    }
}

#[cycle(show)]
fn label(out: &mut String, key: &Text, at: Span, value: &Node) -> Mem<()> {
    open(out, "label")?;
    name(out, key.as_str(), at)?;
    node(out, value)?;
    close(out)
}

#[cycle(show)]
pub fn target(out: &mut String, target: &Target) -> Mem<()> {
    match target {
        Target::Local { name, at } => variable(out, "local", name, *at),
        Target::IVar { name, at } => variable(out, "ivar", name, *at),
        Target::CVar { name, at } => variable(out, "cvar", name, *at),
        Target::GVar { name, at } => variable(out, "gvar", name, *at),
        Target::Const {
            scope,
            path: words,
            at,
        } => {
            begin(out, "const", *at)?;
            scope_of(out, scope)?;
            path(out, words)?;
            close(out)
        }
    }
}

// The value before a constant, if there is one.
#[cycle(show)]
pub fn scope_of(out: &mut String, scope: &Option<Boxed<Node>>) -> Mem<()> {
    match scope {
        None => Ok(()),
        Some(scope) => {
            word(out, "of")?;
            node(out, scope.get())
        }
    }
}

fn variable(out: &mut String, kind: &str, name: &Text, at: Span) -> Mem<()> {
    begin(out, kind, at)?;
    word(out, name.as_str())?;
    close(out)
}

pub fn targets(out: &mut String, targets: &[ListTarget]) -> Mem<()> {
    open(out, "")?;
    for target in targets {
        list_target(out, target)?;
    }
    close(out)
}

fn list_target(out: &mut String, target: &ListTarget) -> Mem<()> {
    if target.splat {
        open(out, "splat")?;
        list_variable(out, &target.variable, target.at)?;
        close(out)
    } else {
        list_variable(out, &target.variable, target.at)
    }
}

fn list_variable(out: &mut String, one: &Variable, at: Span) -> Mem<()> {
    match one {
        Variable::Local(name) => variable(out, "local", name, at),
        Variable::Instance(name) => variable(out, "ivar", name, at),
    }
}

#[cycle(show)]
pub fn arms(out: &mut String, arms: &[Arm]) -> Mem<()> {
    for arm in arms {
        open(out, "arm")?;
        node(out, &arm.condition)?;
        side(out, &arm.body)?;
        close(out)?;
    }
    Ok(())
}

#[cycle(show)]
fn side(out: &mut String, side: &Option<Node>) -> Mem<()> {
    match side {
        None => word(out, "-"),
        Some(side) => node(out, side),
    }
}

#[cycle(show)]
pub fn whens(out: &mut String, whens: &[When]) -> Mem<()> {
    for when in whens {
        open(out, "when")?;
        item_list(out, when.values.as_slice())?;
        node(out, &when.body)?;
        close(out)?;
    }
    Ok(())
}

#[cycle(show)]
pub fn rescues(out: &mut String, rescues: &[Rescue]) -> Mem<()> {
    open(out, "")?;
    for rescue in rescues {
        open(out, "rescue")?;
        open(out, "")?;
        nodes(out, rescue.classes.as_slice())?;
        close(out)?;
        local_or_none(out, &rescue.variable)?;
        node(out, &rescue.body)?;
        close(out)?;
    }
    close(out)
}

#[cycle(show)]
pub fn params(out: &mut String, params: &[Param]) -> Mem<()> {
    open(out, "")?;
    for one in params {
        param(out, one)?;
    }
    close(out)
}

#[cycle(show)]
fn param(out: &mut String, param: &Param) -> Mem<()> {
    match param {
        Param::Required(one) => local(out, "req", one),
        Param::Optional { local, default } => with_default(out, "opt", local, default),
        Param::Rest(one) => taken(out, "rest", one),
        Param::Trailing(one) => local(out, "post", one),
        Param::Keyword(one) => local(out, "key", one),
        Param::OptionalKeyword { local, default } => with_default(out, "optkey", local, default),
        Param::RestKeywords(one) => taken(out, "keyrest", one),
        Param::Block(one) => taken(out, "blockarg", one),
        Param::Group(all) => group(out, all.as_slice()),
    }
}

#[cycle(show)]
fn with_default(out: &mut String, kind: &str, local: &Local, default: &Node) -> Mem<()> {
    open(out, kind)?;
    name(out, local.name.as_str(), local.at)?;
    node(out, default)?;
    close(out)
}

fn group(out: &mut String, all: &[Local]) -> Mem<()> {
    open(out, "group")?;
    for local in all {
        name(out, local.name.as_str(), local.at)?;
    }
    close(out)
}
