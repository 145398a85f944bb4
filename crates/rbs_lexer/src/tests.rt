use super::*;
use std::alloc::Global;
use std::test::Fail;

// The tokens of a text, each as its kind and its text, with a `^` before what begins a line; or the span that is refused.
fn shown(alloc: Global, text: &str) -> Result<String, Fail> {
    let mut out = String::new(alloc);
    if text.len() >= 1 << 32 {
        return Ok(out);
    }
    match tokens(alloc, text) {
        Ok(found) => {
            for token in found.as_slice() {
                let kind = token.kind();
                let run = token.text();
                out.push_str(if out.is_empty() { "" } else { ", " })?;
                out.push_str(if token.begins_line() { "^" } else { "" })?;
                let one = format!(in alloc; "{kind:?} {run}")?;
                out.push_str(one.as_str())?;
            }
        }
        Err(BadToken::At(at)) => {
            let start = at.start;
            let end = at.end;
            return Ok(format!(in alloc; "bad {start}..{end}")?);
        }
        Err(BadToken::NoMemory) => out.push_str("no memory")?,
    }
    Ok(out)
}

const GAPS: [(&str, &str); 10] = [
    ("", ""),
    (" \t\r\n# x\n%a{y}", ""),
    ("class A # end\nend", "Class class, Constant A, ^End end"),
    ("\ra\rb", "^Word a, ^Word b"),
    ("a %a{\n} b #", "Word a, ^Word b"),
    ("%a{x}%a(y)%a[}]%a<w>%a|v|end", "End end"),
    ("%a{class", "bad 0..1"),
    ("def %a{x", "bad 4..5"),
    ("%a {x}", "bad 0..1"),
    ("def %b", "Def def, MethodName %, Word b"),
];

#[test]
fn what_is_skipped_between_tokens(rt: HostRuntime) -> Result<(), Fail> {
    for (text, expected) in GAPS {
        assert_eq!(rt; shown(rt.alloc(), text)?.as_str(), expected, "in {text}");
    }
    Ok(())
}

const WORDS: [(&str, &str); 8] = [
    (
        "Aé _A _é été é9 self use",
        "Constant Aé, InterfaceName _A, Word _é, Word été, Word é9, SelfWord self, Use use",
    ),
    ("classes Class", "Word classes, Constant Class"),
    ("1a", "Integer 1, Word a"),
    (
        "@a @@B $1",
        "InstanceVariable @a, ClassVariable @@B, Global $1",
    ),
    ("@ a", "bad 0..1"),
    ("a \u{a0}", "bad 2..4"),
    ("a\u{1f600}", "bad 1..5"),
    ("a?", "Word a, Question ?"),
];

#[test]
fn words_and_variables(rt: HostRuntime) -> Result<(), Fail> {
    for (text, expected) in WORDS {
        assert_eq!(rt; shown(rt.alloc(), text)?.as_str(), expected, "in {text}");
    }
    Ok(())
}

const LITERALS: [(&str, &str); 19] = [
    ("1_000 007", "Integer 1_000, Integer 007"),
    ("1__0", "Integer 1, Word __0"),
    ("1_", "Integer 1, Word _"),
    ("1.5", "Integer 1, Dot ., Integer 5"),
    ("-12", "Integer -12"),
    ("- 1", "bad 0..1"),
    (
        "170141183460469231731687303715884105727",
        "Integer 170141183460469231731687303715884105727",
    ),
    ("170141183460469231731687303715884105728", "bad 0..1"),
    (
        "-170141183460469231731687303715884105728",
        "Integer -170141183460469231731687303715884105728",
    ),
    ("-170141183460469231731687303715884105729", "bad 0..1"),
    (r#""a\"b" 'c\'d'"#, r#"String "a\"b", String 'c\'d'"#),
    (r#""a\\"b"#, r#"String "a\\", Word b"#),
    ("\"a", "bad 0..1"),
    (":\"a", "bad 1..2"),
    (
        ":a :a? :a= :1 :+@ :[]= :'a b'",
        "Symbol :a, Symbol :a?, Symbol :a=, Symbol :1, Symbol :+@, Symbol :[]=, Symbol :'a b'",
    ),
    (":=", "Colon :, Equals ="),
    ("{a:B}", "LeftBrace {, Word a, Symbol :B, RightBrace }"),
    (":::", "ColonColon ::, Colon :"),
    (
        "....***->",
        "Ellipsis ..., Dot ., StarStar **, Star *, Arrow ->",
    ),
];

#[test]
fn literals_and_signs(rt: HostRuntime) -> Result<(), Fail> {
    for (text, expected) in LITERALS {
        assert_eq!(rt; shown(rt.alloc(), text)?.as_str(), expected, "in {text}");
    }
    Ok(())
}

const NAMES: [(&str, &str); 14] = [
    ("def a=: b", "Def def, MethodName a=, Colon :, Word b"),
    ("def a= : b", "Def def, Word a, Equals =, Colon :, Word b"),
    (
        "attr_writer a=(@a)",
        "AttrWriter attr_writer, Word a, Equals =, LeftParen (, InstanceVariable @a, RightParen )",
    ),
    (
        "alias a=b= c=",
        "Alias alias, MethodName a=, MethodName b=, Word c, Equals =",
    ),
    (
        "alias def foo= x=",
        "Alias alias, Def def, MethodName foo=, Word x, Equals =",
    ),
    (
        "def self # x\n.a?: b?",
        "Def def, SelfWord self, ^Dot ., MethodName a?, Colon :, Word b, Question ?",
    ),
    (
        "def self?.`x y`:",
        "Def def, SelfQuestion self?, Dot ., MethodName `x y`, Colon :",
    ),
    (
        "def |: A | B",
        "Def def, Bar |, Colon :, Constant A, Bar |, Constant B",
    ),
    ("def 9: 9", "Def def, MethodName 9, Colon :, Integer 9"),
    (
        "alias self.[]= self.!",
        "Alias alias, SelfWord self, Dot ., MethodName []=, SelfWord self, Dot ., MethodName !",
    ),
    (
        "self.@x self.y!",
        "SelfWord self, Dot ., InstanceVariable @x, SelfWord self, Dot ., MethodName y!",
    ),
    (
        "def def: def ->",
        "Def def, Def def, Colon :, Def def, Arrow ->",
    ),
    ("`a`", "bad 0..1"),
    ("def `a", "bad 4..5"),
];

#[test]
fn names_of_methods_by_the_tokens_before_them(rt: HostRuntime) -> Result<(), Fail> {
    for (text, expected) in NAMES {
        assert_eq!(rt; shown(rt.alloc(), text)?.as_str(), expected, "in {text}");
    }
    Ok(())
}
