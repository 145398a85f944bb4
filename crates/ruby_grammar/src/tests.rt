use crate::make::{both, chain, chained, either, label, opened, token};
use crate::{Blank, Fault, Grammar, Part, Rule, Token, parse};
use src_text::{Mem, Seq};
use std::alloc::Global;

const A: u8 = 0;

const PLUS: u8 = 1;

const OPEN: u8 = 2;

const CLOSE: u8 = 3;

const END: u8 = 4;

fn kind(alloc: Global, kind: u8) -> Mem<Part> {
    token(alloc, &[kind], Blank::Any)
}

fn letter(alloc: Global) -> Mem<Part> {
    label(alloc, 0, kind(alloc, A)?)
}

// sum ")"
fn closed(alloc: Global) -> Mem<Part> {
    both(alloc, opened(1), kind(alloc, CLOSE)?)
}

fn bracketed(alloc: Global) -> Mem<Part> {
    both(alloc, kind(alloc, OPEN)?, closed(alloc)?)
}

// "a" / "(" sum ")"
fn one(alloc: Global) -> Mem<Part> {
    either(alloc, letter(alloc)?, bracketed(alloc)?)
}

// "+" one, with no blank before the sign
fn link(alloc: Global) -> Mem<Part> {
    both(alloc, token(alloc, &[PLUS], Blank::Without)?, Part::Call(0))
}

fn links(alloc: Global) -> Mem<Part> {
    chain(alloc, &[PLUS], link(alloc)?)
}

// one ("+" one)*
fn sum(alloc: Global) -> Mem<Part> {
    chained(alloc, 1, both(alloc, Part::Call(0), links(alloc)?)?)
}

// sum end
fn whole(alloc: Global) -> Mem<Part> {
    label(alloc, 2, both(alloc, opened(1), kind(alloc, END)?)?)
}

fn add(rules: &mut Seq<Rule>, part: Part) -> Mem<()> {
    rules.push(Rule { part, kept: true })
}

fn small_grammar(alloc: Global) -> Mem<Grammar> {
    let mut rules = Seq::new(alloc);
    add(&mut rules, one(alloc)?)?;
    add(&mut rules, sum(alloc)?)?;
    add(&mut rules, whole(alloc)?)?;
    Ok(Grammar { rules, start: 2 })
}

fn tokens_of(alloc: Global, kinds: &[u8], blank: bool) -> Mem<Seq<Token>> {
    let mut tokens = Seq::new(alloc);
    for kind in kinds {
        tokens.push(Token { kind: *kind, blank })?;
    }
    Ok(tokens)
}

// Where the list of kinds is refused; 100 where it is read, 200 where memory is wanting.
fn refused_at(alloc: Global, kinds: &[u8], blank: bool) -> usize {
    let Ok(grammar) = small_grammar(alloc) else {
        return 200;
    };
    let Ok(tokens) = tokens_of(alloc, kinds, blank) else {
        return 200;
    };
    match parse(alloc, &grammar, tokens.as_slice()) {
        Ok(_) => 100,
        Err(Fault::Syntax(place)) => place,
        Err(Fault::TooDeep(place)) => place,
        Err(Fault::NoMemory) => 200,
    }
}

#[test]
fn lists_are_read(rt: HostRuntime) {
    let alloc = rt.alloc();
    assert_eq!(&rt; refused_at(alloc, &[A, END], false), 100);
    assert_eq!(&rt; refused_at(alloc, &[A, PLUS, A, END], false), 100);
    assert_eq!(&rt;
        refused_at(alloc, &[OPEN, A, PLUS, A, CLOSE, PLUS, A, END], false),
        100
    );
}

#[test]
fn the_farthest_failure_is_told(rt: HostRuntime) {
    let alloc = rt.alloc();
    assert_eq!(&rt; refused_at(alloc, &[END], false), 0);
    assert_eq!(&rt; refused_at(alloc, &[A, PLUS, END], false), 2);
    assert_eq!(&rt; refused_at(alloc, &[A, PLUS, A, END], true), 1);
    assert_eq!(&rt; refused_at(alloc, &[OPEN, A, END], false), 2);
}
