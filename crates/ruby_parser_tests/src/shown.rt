use crate::pieces::{
    all_quoted, begin, close, method, none, number, open, path, quoted, span, word,
};
use crate::shown_parts::{
    arms, item_list, items, params, parts, rescues, scope_of, target, targets, whens,
};
use ruby_lexer::RubyAt;
use ruby_parser::parse;
use ruby_tree::{ConstPath, Dot, Item, MethodName, Node, NodeKind, Part, Program, WordKind};
use src_text::{Boxed, Mem, NoMemory, Seq, Span, Text};
use std::alloc::Global;

/// The tree of a text, or why it is refused.
pub fn shown(alloc: Global, text: &str) -> Mem<String> {
    if text.len() >= 1 << 32 {
        return Ok(String::new(alloc));
    }
    match parse(alloc, text) {
        Ok(found) => program_text(alloc, &found),
        Err(fault) => fault_text(alloc, fault),
    }
}

fn program_text(alloc: Global, found: &Program) -> Mem<String> {
    let mut out = String::new(alloc);
    program(&mut out, found)?;
    Ok(out)
}

fn fault_text(alloc: Global, fault: RubyAt) -> Mem<String> {
    let mut out = String::new(alloc);
    match fault {
        RubyAt::Syntax(at) => refused(&mut out, "Syntax", at)?,
        RubyAt::TooDeep(at) => refused(&mut out, "TooDeep", at)?,
        RubyAt::Unsupported(at, form) => {
            refused(&mut out, "Unsupported", at)?;
            word(&mut out, form.name())?;
        }
        RubyAt::NoMemory => return Err(NoMemory),
    }
    Ok(out)
}

fn refused(out: &mut String, kind: &str, at: Span) -> Mem<()> {
    word(out, kind)?;
    span(out, at)
}

fn program(out: &mut String, program: &Program) -> Mem<()> {
    match &program.root.kind {
        NodeKind::Seq(statements) => {
            begin(out, "program", program.root.span)?;
            nodes(out, statements.as_slice())?;
            close(out)
        }
        _ => node(out, &program.root),
    }
}

#[cycle(show)]
pub fn nodes(out: &mut String, nodes: &[Node]) -> Mem<()> {
    for one in nodes {
        node(out, one)?;
    }
    Ok(())
}

// A node in brackets that begin with a word.
#[cycle(show)]
pub fn begun(out: &mut String, first: &str, one: &Node) -> Mem<()> {
    open(out, first)?;
    node(out, one)?;
    close(out)
}

#[cycle(show)]
pub fn node(out: &mut String, node: &Node) -> Mem<()> {
    let at = node.span;
    match &node.kind {
        NodeKind::Nil => alone(out, "nil", at),
        NodeKind::True => alone(out, "true", at),
        NodeKind::False => alone(out, "false", at),
        NodeKind::SelfRef => alone(out, "self", at),
        NodeKind::File => alone(out, "file", at),
        NodeKind::Int(value) => integer(out, at, *value),
        NodeKind::Str(text) => literal(out, "str", at, text),
        NodeKind::Sym(text) => literal(out, "sym", at, text),
        NodeKind::Name(name) => named(out, "name", at, name),
        NodeKind::IVar(name) => named(out, "ivar", at, name),
        NodeKind::CVar(name) => named(out, "cvar", at, name),
        NodeKind::GVar(name) => named(out, "gvar", at, name),
        NodeKind::Words { kind, words } => word_list(out, at, *kind, words.as_slice()),
        NodeKind::AliasOf { new_name, old_name } => alias(out, at, new_name, old_name),
        other => value(out, at, other),
    }
}

fn alone(out: &mut String, kind: &str, at: Span) -> Mem<()> {
    begin(out, kind, at)?;
    close(out)
}

fn integer(out: &mut String, at: Span, value: i128) -> Mem<()> {
    begin(out, "int", at)?;
    number(out, value)?;
    close(out)
}

fn literal(out: &mut String, kind: &str, at: Span, text: &Text) -> Mem<()> {
    begin(out, kind, at)?;
    quoted(out, text)?;
    close(out)
}

fn named(out: &mut String, kind: &str, at: Span, name: &Text) -> Mem<()> {
    begin(out, kind, at)?;
    word(out, name.as_str())?;
    close(out)
}

fn word_list(out: &mut String, at: Span, kind: WordKind, words: &[Text]) -> Mem<()> {
    begin(out, "words", at)?;
    match kind {
        WordKind::Strings => word(out, "strings")?,
        WordKind::Symbols => word(out, "symbols")?,
    }
    all_quoted(out, words)?;
    close(out)
}

fn alias(out: &mut String, at: Span, new_name: &MethodName, old_name: &MethodName) -> Mem<()> {
    begin(out, "alias", at)?;
    method(out, new_name)?;
    method(out, old_name)?;
    close(out)
}

#[cycle(show)]
fn value(out: &mut String, at: Span, kind: &NodeKind) -> Mem<()> {
    match kind {
        NodeKind::StrParts(all) => texts(out, "str_parts", at, all),
        NodeKind::SymParts(all) => texts(out, "sym_parts", at, all),
        NodeKind::Regexp { parts: all, flags } => regexp(out, at, all, flags),
        NodeKind::Const { scope, path } => constant(out, at, scope, path),
        NodeKind::ArrayOf(all) => of_items(out, "array", at, all),
        NodeKind::HashOf(all) => of_items(out, "hash", at, all),
        NodeKind::Not(one) => single(out, "not", at, one),
        NodeKind::Defined(one) => single(out, "defined", at, one),
        NodeKind::BlockPass(one) => single(out, "block_pass", at, one),
        NodeKind::SingletonBody(one) => single(out, "singleton_class", at, one),
        NodeKind::Return(all) => of_nodes(out, "return", at, all),
        NodeKind::Break(all) => of_nodes(out, "break", at, all),
        NodeKind::Next(all) => of_nodes(out, "next", at, all),
        NodeKind::Seq(all) => of_nodes(out, "seq", at, all),
        other => call(out, at, other),
    }
}

#[cycle(show)]
fn call(out: &mut String, at: Span, kind: &NodeKind) -> Mem<()> {
    match kind {
        NodeKind::Call {
            receiver,
            dot,
            method: name,
            args,
            block,
        } => {
            begin_call(out, "call", "safe_call", at, *dot)?;
            maybe(out, receiver)?;
            method(out, name)?;
            item_list(out, args.as_slice())?;
            maybe(out, block)?;
            close(out)
        }
        NodeKind::AsgnCall {
            receiver,
            dot,
            method: name,
            args,
        } => {
            begin_call(out, "asgn_call", "safe_asgn_call", at, *dot)?;
            node(out, receiver.get())?;
            method(out, name)?;
            item_list(out, args.as_slice())?;
            close(out)
        }
        NodeKind::Super {
            args: Some(args),
            block,
        } => {
            begin(out, "super", at)?;
            item_list(out, args.as_slice())?;
            maybe(out, block)?;
            close(out)
        }
        NodeKind::Super { args: None, block } => {
            begin(out, "super", at)?;
            none(out)?;
            maybe(out, block)?;
            close(out)
        }
        NodeKind::Yield { args, block } => {
            begin(out, "yield", at)?;
            item_list(out, args.as_slice())?;
            maybe(out, block)?;
            close(out)
        }
        other => operation(out, at, other),
    }
}

// The front of a call, by whether it is left out on `nil`.
fn begin_call(out: &mut String, plain: &str, safe: &str, at: Span, dot: Dot) -> Mem<()> {
    match dot {
        Dot::Plain => begin(out, plain, at),
        Dot::Safe => begin(out, safe, at),
    }
}

#[cycle(show)]
fn operation(out: &mut String, at: Span, kind: &NodeKind) -> Mem<()> {
    match kind {
        NodeKind::And(left, right) => {
            begin(out, "and", at)?;
            node(out, left.get())?;
            node(out, right.get())?;
            close(out)
        }
        NodeKind::Or(left, right) => {
            begin(out, "or", at)?;
            node(out, left.get())?;
            node(out, right.get())?;
            close(out)
        }
        NodeKind::RangeOf {
            first,
            last,
            without_last,
        } => {
            begin(out, "range", at)?;
            word(out, if *without_last { "..." } else { ".." })?;
            maybe(out, first)?;
            maybe(out, last)?;
            close(out)
        }
        NodeKind::Block { params: all, body } => {
            begin(out, "block", at)?;
            params(out, all.as_slice())?;
            node(out, body.get())?;
            close(out)
        }
        NodeKind::Lambda { params: all, body } => {
            begin(out, "lambda", at)?;
            params(out, all.as_slice())?;
            node(out, body.get())?;
            close(out)
        }
        other => statement(out, at, other),
    }
}

#[cycle(show)]
fn statement(out: &mut String, at: Span, kind: &NodeKind) -> Mem<()> {
    match kind {
        NodeKind::Asgn { target: one, value } => {
            begin(out, "asgn", at)?;
            target(out, one)?;
            node(out, value.get())?;
            close(out)
        }
        NodeKind::MultiAsgn {
            targets: all,
            values,
            values_at,
        } => {
            begin(out, "multi_asgn", at)?;
            targets(out, all.as_slice())?;
            begin(out, "values", *values_at)?;
            nodes(out, values.as_slice())?;
            close(out)?;
            close(out)
        }
        NodeKind::If {
            arms: all,
            otherwise,
        } => {
            begin(out, "if", at)?;
            arms(out, all.as_slice())?;
            maybe(out, otherwise)?;
            close(out)
        }
        NodeKind::Case {
            subject,
            arms,
            otherwise,
        } => {
            begin(out, "case", at)?;
            maybe(out, subject)?;
            whens(out, arms.as_slice())?;
            maybe(out, otherwise)?;
            close(out)
        }
        NodeKind::While {
            condition,
            negated,
            body,
        } => {
            begin(out, if *negated { "until" } else { "while" }, at)?;
            node(out, condition.get())?;
            node(out, body.get())?;
            close(out)
        }
        other => definition(out, at, other),
    }
}

#[cycle(show)]
fn definition(out: &mut String, at: Span, kind: &NodeKind) -> Mem<()> {
    match kind {
        NodeKind::Begin {
            body,
            rescues: all,
            otherwise,
            ensure,
        } => {
            begin(out, "begin", at)?;
            node(out, body.get())?;
            rescues(out, all.as_slice())?;
            maybe(out, otherwise)?;
            maybe(out, ensure)?;
            close(out)
        }
        NodeKind::Def {
            singleton,
            method: name,
            params: all,
            body,
        } => {
            begin(out, if *singleton { "def_self" } else { "def" }, at)?;
            method(out, name)?;
            params(out, all.as_slice())?;
            node(out, body.get())?;
            close(out)
        }
        NodeKind::ClassBody {
            path: words,
            path_at,
            superclass,
            body,
        } => {
            begin(out, "class", at)?;
            path(out, words)?;
            span(out, *path_at)?;
            maybe(out, superclass)?;
            node(out, body.get())?;
            close(out)
        }
        NodeKind::ModuleBody {
            path: words,
            path_at,
            body,
        } => {
            begin(out, "module", at)?;
            path(out, words)?;
            span(out, *path_at)?;
            node(out, body.get())?;
            close(out)
        }
        _ => word(out, "no node"),
    }
}

// A node, or that there is none.
#[cycle(show)]
pub fn maybe(out: &mut String, one: &Option<Boxed<Node>>) -> Mem<()> {
    match one {
        None => none(out),
        Some(one) => node(out, one.get()),
    }
}

#[cycle(show)]
fn texts(out: &mut String, kind: &str, at: Span, all: &Seq<Part>) -> Mem<()> {
    begin(out, kind, at)?;
    parts(out, all.as_slice())?;
    close(out)
}

#[cycle(show)]
fn regexp(out: &mut String, at: Span, all: &Seq<Part>, flags: &Text) -> Mem<()> {
    begin(out, "regexp", at)?;
    quoted(out, flags)?;
    parts(out, all.as_slice())?;
    close(out)
}

#[cycle(show)]
fn constant(out: &mut String, at: Span, scope: &Option<Boxed<Node>>, words: &ConstPath) -> Mem<()> {
    begin(out, "const", at)?;
    scope_of(out, scope)?;
    path(out, words)?;
    close(out)
}

#[cycle(show)]
fn of_items(out: &mut String, kind: &str, at: Span, all: &Seq<Item>) -> Mem<()> {
    begin(out, kind, at)?;
    items(out, all.as_slice())?;
    close(out)
}

#[cycle(show)]
fn of_nodes(out: &mut String, kind: &str, at: Span, all: &Seq<Node>) -> Mem<()> {
    begin(out, kind, at)?;
    nodes(out, all.as_slice())?;
    close(out)
}

#[cycle(show)]
fn single(out: &mut String, kind: &str, at: Span, one: &Boxed<Node>) -> Mem<()> {
    begin(out, kind, at)?;
    node(out, one.get())?;
    close(out)
}
