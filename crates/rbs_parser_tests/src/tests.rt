use crate::shown::shown;
use core_sigs::core_text;
use rbs_parser::parse;
use src_text::Mem;
use std::alloc::Global;
use std::test::Fail;

// The texts whose tree or refusal isn't the one beside it, each with what it is.
fn differences(alloc: Global, rows: &[(&str, &str)]) -> Mem<String> {
    let mut out = String::new(alloc);
    for row in rows {
        let found = shown(alloc, row.0)?;
        if found.as_str() != row.1 {
            out.push_str(row.0)?;
            out.push_str(" => ")?;
            out.push_str(found.as_str())?;
            out.push_str("\n")?;
        }
    }
    Ok(out)
}

const TOKENS: &[(&str, &str)] = &[
    (
        "%a{x}%a(y)%a[z]%a<w>%a|v| class A end",
        r#"(file (class (n 32:33 "A") () - ()))"#,
    ),
    (
        "type t = 'a\\'b\\\\c'",
        r#"(file (type (n 5:6 "t") () (str "a'b\\c")))"#,
    ),
    (
        "type t = -170141183460469231731687303715884105728",
        r#"(file (type (n 5:6 "t") () (int -170141183460469231731687303715884105728)))"#,
    ),
    (
        "type t = 170141183460469231731687303715884105728",
        "Syntax 9:10",
    ),
    ("type t = \"a\\\"", "Syntax 9:10"),
    ("X:A", "Syntax 1:3"),
    ("type t = {a:A}", "Syntax 11:13"),
    (
        "type end = end",
        r#"(file (type (n 5:8 "end") () (alias-ty (n 11:14 "end"))))"#,
    ),
];

#[test]
fn blanks_and_tokens(rt: HostRuntime) -> Result<(), Fail> {
    assert_eq!(rt; differences(rt.alloc(), TOKENS)?.as_str(), "");
    Ok(())
}

// A `=` belongs to the name in front of `:` and in an `alias`.
const NAMES: &[(&str, &str)] = &[
    (
        "class A def a=: (B) -> B end",
        r#"(file (class (n 6:7 "A") () - ((def 12:14 "a=" instance - whole (fn () ((p (instance (n 17:18 "B")) -)) () - () () - - (instance (n 23:24 "B")))))))"#,
    ),
    ("class A def a=(B) -> B end", "Syntax 13:14"),
    (
        "class A alias self.a self.b end",
        r#"(file (class (n 6:7 "A") () - ((alias 19:20 "a" "b" singleton))))"#,
    ),
    ("class A alias self.a b end", "Syntax 21:22"),
    (
        "interface _A alias a=b end",
        r#"(file (interface (n 10:12 "_A") () ((alias 19:21 "a=" "b" instance))))"#,
    ),
    (
        "class A def self?  .m: () -> B end",
        r#"(file (class (n 6:7 "A") () - ((def 20:21 "m" both - whole (fn () () () - () () - - (instance (n 29:30 "B")))))))"#,
    ),
    (
        "class A def &: () -> B end",
        r#"(file (class (n 6:7 "A") () - ((def 12:13 "&" instance - whole (fn () () () - () () - - (instance (n 21:22 "B")))))))"#,
    ),
];

#[test]
fn names_of_methods(rt: HostRuntime) -> Result<(), Fail> {
    assert_eq!(rt; differences(rt.alloc(), NAMES)?.as_str(), "");
    Ok(())
}

// A `?` behind the result of a function is the result's, and there is one at most. Only a record may end in a comma.
const TYPES: &[(&str, &str)] = &[
    (
        "type t = ^() -> Integer?",
        r#"(file (type (n 5:6 "t") () (proc (fn () () () - () () - - (opt (instance (n 16:23 "Integer")))))))"#,
    ),
    ("type t = ^() -> Integer??", "Syntax 24:25"),
    (
        "type t = (A | B) & C",
        r#"(file (type (n 5:6 "t") () (inter (union (instance (n 10:11 "A")) (instance (n 14:15 "B"))) (instance (n 19:20 "C")))))"#,
    ),
    (
        "type t = ^() -> A & B",
        r#"(file (type (n 5:6 "t") () (inter (proc (fn () () () - () () - - (instance (n 16:17 "A")))) (instance (n 20:21 "B")))))"#,
    ),
    (
        "type t = ^?{ -> A } -> B",
        r#"(file (type (n 5:6 "t") () (proc (fn () () () - () () - (block optional (fn () () () - () () - - (instance (n 16:17 "A")))) (instance (n 23:24 "B"))))))"#,
    ),
    (
        "type t = ::_A[B]",
        r#"(file (type (n 5:6 "t") () (iface (n 9:13 "::_A") (instance (n 14:15 "B")))))"#,
    ),
    (
        "type t = { a: A, B: B, _C: C, end: D, }",
        r#"(file (type (n 5:6 "t") () (record ("a" (instance (n 14:15 "A"))) ("B" (instance (n 20:21 "B"))) ("_C" (instance (n 27:28 "C"))) ("end" (instance (n 35:36 "D"))))))"#,
    ),
    ("type t = [A,]", "Syntax 12:13"),
    ("type t = A[B,]", "Syntax 13:14"),
];

#[test]
fn types(rt: HostRuntime) -> Result<(), Fail> {
    assert_eq!(rt; differences(rt.alloc(), TYPES)?.as_str(), "");
    Ok(())
}

// Required parameters behind `?` and `*` are trailing ones, and none stands behind a keyword.
const PARAMETERS: &[(&str, &str)] = &[
    (
        "class A def a: (A, ?B, *C, D, e: E, ?f: F, **G) -> B end",
        r#"(file (class (n 6:7 "A") () - ((def 12:13 "a" instance - whole (fn () ((p (instance (n 16:17 "A")) -)) ((p (instance (n 20:21 "B")) -)) (p (instance (n 24:25 "C")) -) ((p (instance (n 27:28 "D")) -)) ((k "e" required (instance (n 33:34 "E"))) (k "f" optional (instance (n 40:41 "F")))) (p (instance (n 45:46 "G")) -) - (instance (n 51:52 "B")))))))"#,
    ),
    (
        "class A def a: (*A, B, C) -> B end",
        r#"(file (class (n 6:7 "A") () - ((def 12:13 "a" instance - whole (fn () () () (p (instance (n 17:18 "A")) -) ((p (instance (n 20:21 "B")) -) (p (instance (n 23:24 "C")) -)) () - - (instance (n 29:30 "B")))))))"#,
    ),
    (
        "class A def a: (?A, B) -> B end",
        r#"(file (class (n 6:7 "A") () - ((def 12:13 "a" instance - whole (fn () () ((p (instance (n 17:18 "A")) -)) - ((p (instance (n 20:21 "B")) -)) () - - (instance (n 26:27 "B")))))))"#,
    ),
    ("class A def a: (*A, B, *C) -> B end", "Syntax 23:24"),
    ("class A def a: (a: A, *B) -> B end", "Syntax 22:23"),
    (
        "class A def a: (a: A, ?b: B, c: C) -> B end",
        r#"(file (class (n 6:7 "A") () - ((def 12:13 "a" instance - whole (fn () () () - () ((k "a" required (instance (n 19:20 "A"))) (k "b" optional (instance (n 26:27 "B"))) (k "c" required (instance (n 32:33 "C")))) - - (instance (n 38:39 "B")))))))"#,
    ),
    (
        "class A\n  def m: () -> A\n  def n: (A,) -> A\nend\n",
        "Syntax 37:38",
    ),
    (
        "class A def a: -> B def a: { -> B } -> C def a: ?{ () -> B } -> C def a: () { (A, *B) -> C? } -> D end",
        r#"(file (class (n 6:7 "A") () - ((def 12:13 "a" instance - whole (fn () () () - () () - - (instance (n 18:19 "B")))) (def 24:25 "a" instance - whole (fn () () () - () () - (block required (fn () () () - () () - - (instance (n 32:33 "B")))) (instance (n 39:40 "C")))) (def 45:46 "a" instance - whole (fn () () () - () () - (block optional (fn () () () - () () - - (instance (n 57:58 "B")))) (instance (n 64:65 "C")))) (def 70:71 "a" instance - whole (fn () () () - () () - (block required (fn () ((p (instance (n 79:80 "A")) -)) () (p (instance (n 83:84 "B")) -) () () - - (opt (instance (n 89:90 "C"))))) (instance (n 97:98 "D")))))))"#,
    ),
];

#[test]
fn parameters_and_blocks(rt: HostRuntime) -> Result<(), Fail> {
    assert_eq!(rt; differences(rt.alloc(), PARAMETERS)?.as_str(), "");
    Ok(())
}

// A visibility word is a member's own on its line, and else a member.
const MEMBERS: &[(&str, &str)] = &[
    (
        "class A private attr_writer self.a (@b): C end",
        r#"(file (class (n 6:7 "A") () - ((attr 33:34 "a" singleton private w "@b" (instance (n 41:42 "C"))))))"#,
    ),
    (
        "class A public def m: () -> B end",
        r#"(file (class (n 6:7 "A") () - ((def 19:20 "m" instance public whole (fn () () () - () () - - (instance (n 28:29 "B")))))))"#,
    ),
    (
        "class A public\n def m: () -> B end",
        r#"(file (class (n 6:7 "A") () - ((public) (def 20:21 "m" instance - whole (fn () () () - () () - - (instance (n 29:30 "B")))))))"#,
    ),
    (
        "class A public attr_reader a: B private attr_writer self.a: B end",
        r#"(file (class (n 6:7 "A") () - ((attr 27:28 "a" instance public r same (instance (n 30:31 "B"))) (attr 57:58 "a" singleton private w same (instance (n 60:61 "B"))))))"#,
    ),
    (
        "class A attr_reader a(): B attr_reader a (@b) : C end",
        r#"(file (class (n 6:7 "A") () - ((attr 20:21 "a" instance - r absent (instance (n 25:26 "B"))) (attr 39:40 "a" instance - r "@b" (instance (n 48:49 "C"))))))"#,
    ),
    (
        "class A @a: B self.@a: B @@a: B self . @a: B end",
        r#"(file (class (n 6:7 "A") () - ((var 8:10 "@a" instance (instance (n 12:13 "B"))) (var 19:21 "@a" singleton (instance (n 23:24 "B"))) (var 25:28 "@@a" class (instance (n 30:31 "B"))) (var 39:41 "@a" singleton (instance (n 43:44 "B"))))))"#,
    ),
    (
        "class A def self?.a: () -> B | ... end",
        r#"(file (class (n 6:7 "A") () - ((def 18:19 "a" both - more (fn () () () - () () - - (instance (n 27:28 "B")))))))"#,
    ),
    (
        "class A[unchecked out T, in U, unchecked V, out W] end",
        r#"(file (class (n 6:7 "A") ((tp 22:23 "T" unchecked out -) (tp 28:29 "U" checked in -) (tp 41:42 "V" unchecked unmarked -) (tp 48:49 "W" checked out -)) - ()))"#,
    ),
    (
        "module A : B[C], _D, ::E::_F[G] end",
        r#"(file (module (n 7:8 "A") () ((ref (n 11:12 "B") (instance (n 13:14 "C"))) (ref (n 17:19 "_D")) (ref (n 21:28 "::E::_F") (instance (n 29:30 "G")))) ()))"#,
    ),
    (
        "class A module M end end",
        r#"(file (class (n 6:7 "A") () - ((module (n 15:16 "M") () () ()))))"#,
    ),
];

#[test]
fn declarations_and_members(rt: HostRuntime) -> Result<(), Fail> {
    assert_eq!(rt; differences(rt.alloc(), MEMBERS)?.as_str(), "");
    Ok(())
}

// A `::` behind a type's name goes on with that name, so none can begin the next declaration there.
const CONSTANTS: &[(&str, &str)] = &[
    ("type t = A ::B: C", "Syntax 14:15"),
    (
        "module M\n  X: A[B]\n  ::Y: B\nend\n",
        r#"(file (module (n 7:8 "M") () () ((const (n 11:12 "X") (instance (n 14:15 "A") (instance (n 16:17 "B")))) (const (n 21:24 "::Y") (instance (n 26:27 "B"))))))"#,
    ),
];

#[test]
fn constants_behind_types(rt: HostRuntime) -> Result<(), Fail> {
    assert_eq!(rt; differences(rt.alloc(), CONSTANTS)?.as_str(), "");
    Ok(())
}

// A text that ends too early is refused at its very end, behind blanks and comments.
const REFUSALS: &[(&str, &str)] = &[
    ("class", "Syntax 5:5"),
    ("class # A end", "Syntax 13:13"),
    (
        "class A\r\n  def m: () -> A\r\n  def n: () -> (\r\nend\r\n",
        "Syntax 50:50",
    ),
    ("class T\n end end", "Syntax 13:16"),
];

#[test]
fn refusals(rt: HostRuntime) -> Result<(), Fail> {
    assert_eq!(rt; differences(rt.alloc(), REFUSALS)?.as_str(), "");
    Ok(())
}

fn repeated(out: &mut String, part: &str, times: u32) -> Mem<()> {
    for _ in 0..times {
        out.push_str(part)?;
    }
    Ok(())
}

// A type alias whose type is Integer in that many brackets.
fn nested(alloc: Global, brackets: u32) -> Mem<String> {
    let mut out = String::from_str(alloc, "type t = ")?;
    repeated(&mut out, "[", brackets)?;
    out.push_str("Integer")?;
    repeated(&mut out, "]", brackets)?;
    Ok(out)
}

// Its tree where it has 126 of them.
fn nested_tree(alloc: Global) -> Mem<String> {
    let mut out = String::from_str(alloc, r#"(file (type (n 5:6 "t") () "#)?;
    repeated(&mut out, "(tuple ", 126)?;
    out.push_str(r#"(instance (n 135:142 "Integer"))"#)?;
    repeated(&mut out, ")", 126)?;
    out.push_str("))")?;
    Ok(out)
}

#[test]
fn a_declaration_and_127_types_may_be_open_at_once(rt: HostRuntime) -> Result<(), Fail> {
    let alloc = rt.alloc();
    let found = shown(alloc, nested(alloc, 126)?.as_str())?;
    assert_eq!(rt; found, nested_tree(alloc)?);
    let found = shown(alloc, nested(alloc, 127)?.as_str())?;
    assert_eq!(rt; found.as_str(), "TooDeep 136:143");
    Ok(())
}

// Each of them ends with a line `end`.
const CORE_DECLARATIONS: usize = 27;

#[test]
fn the_core_signatures_have_a_tree(rt: HostRuntime) -> Result<(), Fail> {
    let text = core_text();
    if text.len() >= 1 << 32 {
        return Err("the text is too long to be read".into());
    }
    match parse(rt.alloc(), text) {
        Ok(decls) => assert_eq!(rt; decls.len(), CORE_DECLARATIONS),
        Err(_) => assert!(rt; false),
    }
    Ok(())
}
