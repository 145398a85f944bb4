use crate::printed::{inner_text, method_again, type_again};
use src_text::Mem;
use std::alloc::Global;
use std::test::Fail;

// The types that aren't printed as the text beside them, or whose text isn't printed as itself, each with what is printed.
fn types_apart(alloc: Global, rows: &[(&str, &str)]) -> Mem<String> {
    let mut out = String::new(alloc);
    for row in rows {
        differ(&mut out, type_again(alloc, row.0)?.as_str(), row.1)?;
        differ(&mut out, type_again(alloc, row.1)?.as_str(), row.1)?;
    }
    Ok(out)
}

// The same of method types.
fn methods_apart(alloc: Global, rows: &[(&str, &str)]) -> Mem<String> {
    let mut out = String::new(alloc);
    for row in rows {
        differ(&mut out, method_again(alloc, row.0)?.as_str(), row.1)?;
        differ(&mut out, method_again(alloc, row.1)?.as_str(), row.1)?;
    }
    Ok(out)
}

// The types in which another type stands than the one beside them.
fn inner_apart(alloc: Global, rows: &[(&str, &str)]) -> Mem<String> {
    let mut out = String::new(alloc);
    for row in rows {
        differ(&mut out, inner_text(alloc, row.0)?.as_str(), row.1)?;
    }
    Ok(out)
}

fn differ(out: &mut String, found: &str, wanted: &str) -> Mem<()> {
    if found != wanted {
        out.push_str(wanted)?;
        out.push_str(" => ")?;
        out.push_str(found)?;
        out.push_str("\n")?;
    }
    Ok(())
}

// Names, absolute and not, and what stands for a type by itself.
const NAMES: &[(&str, &str)] = &[
    (":: A :: B", "::A::B"),
    ("A [ B , C ]", "A[B, C]"),
    ("singleton (U )", "singleton(U)"),
    (
        "::T&Foo\n&-0 # c\n|K2[ A|1_000 ,(::x1\n?) # c\n]",
        "::T & Foo & 0 | K2[A | 1000, ::x1?]",
    ),
    ("::a[b]", "::a[b]"),
    (":: void", "::void"),
    ("true |\n[ # c\n]\n| K2", "true | [] | K2"),
];

#[test]
fn names_and_their_arguments(rt: HostRuntime) -> Result<(), Fail> {
    assert_eq!(rt; types_apart(rt.alloc(), NAMES)?.as_str(), "");
    Ok(())
}

// A quote, a backslash, a line's end and a tab are escaped; a symbol that is a word has no quotes.
const LITERALS: &[(&str, &str)] = &[
    (r#"'\''"#, r#""'""#),
    (r#"'"'"#, r#""\"""#),
    (r#""\n\t\\""#, r#""\n\t\\""#),
    ("'\t'", r#""\t""#),
    ("'é'", r#""é""#),
    (r#":"a\nb""#, r#":"a\nb""#),
    (r#":'a"b'"#, r#":"a\"b""#),
    (":''", r#":"""#),
    (":'a'", ":a"),
    (":'a?'", ":a?"),
    ("(:[])?", ":[]?"),
    ("-0", "0"),
    ("-1_000", "-1000"),
    (
        "-170141183460469231731687303715884105728?",
        "-170141183460469231731687303715884105728?",
    ),
];

#[test]
fn literals(rt: HostRuntime) -> Result<(), Fail> {
    assert_eq!(rt; types_apart(rt.alloc(), LITERALS)?.as_str(), "");
    Ok(())
}

// Parentheses in an optional.
const OPTIONALS: &[(&str, &str)] = &[
    ("nil?", "nil?"),
    ("1?", "1?"),
    ("(:a=)?", ":a=?"),
    ("(A?)?", "(A?)?"),
    ("((\nuntyped|1_000)) ? # end", "(untyped | 1000)?"),
    ("{}?", "{ }?"),
    (
        "^ # c\n(\n)->((^()->A::_Foo)|U\n[ # c\n::_Foo\n[x1? |_Foo ]]| [( A::bar_baz\n)? # c\n&\nT ]\n)?",
        "^() -> (^() -> A::_Foo | U[::_Foo[x1? | _Foo]] | [A::bar_baz? & T])?",
    ),
    ("^() -> Integer?", "^() -> Integer?"),
    ("(^() -> Integer?)?", "(^() -> Integer?)?"),
];

#[test]
fn optionals(rt: HostRuntime) -> Result<(), Fail> {
    assert_eq!(rt; types_apart(rt.alloc(), OPTIONALS)?.as_str(), "");
    Ok(())
}

// Parentheses in unions and intersections.
const PARTS: &[(&str, &str)] = &[
    ("(A|B)|C", "(A | B) | C"),
    ("(A&B)&C", "(A & B) & C"),
    ("A&(B|C)", "A & (B | C)"),
    ("A & (B & C)", "A & (B & C)"),
    ("A & (^-> B) & C", "A & ^() -> B & C"),
    ("A|^->B|C", "A | ^() -> B | C"),
    ("^-> (A & B)", "^() -> (A & B)"),
    (
        "(\n^ %a<a> ( # \"'%a{ é\n* %a{a\nb} bot # \"'%a{ é\n) ->B&\n{ } ?) | 0",
        "^(*bot) -> B & { }? | 0",
    ),
];

#[test]
fn unions_and_intersections(rt: HostRuntime) -> Result<(), Fail> {
    assert_eq!(rt; types_apart(rt.alloc(), PARTS)?.as_str(), "");
    Ok(())
}

// What would be the name of a method behind `alias |` or `alias &`.
const ALIASES: &[(&str, &str)] = &[
    ("A|alias", "A | alias"),
    ("alias|A", "alias | A"),
    ("alias[A]|(B?)", "alias[A] | B?"),
    ("alias|(A?)", "alias | (A?)"),
    ("(A|alias)|(C?)", "(A | alias) | C?"),
    ("(alias)|(foo)?", "alias | (foo?)"),
];

#[test]
fn names_behind_alias(rt: HostRuntime) -> Result<(), Fail> {
    assert_eq!(rt; types_apart(rt.alloc(), ALIASES)?.as_str(), "");
    Ok(())
}

// Tuples and records.
const BRACKETS: &[(&str, &str)] = &[
    ("[  \n] # end", "[]"),
    ("[(A|B),(C?)?]", "[A | B, (C?)?]"),
    ("{}", "{ }"),
    ("{ a : A , }", "{ a: A }"),
    ("{ A: A, _B: b, end: :end }", "{ A: A, _B: b, end: :end }"),
    (
        "::_Foo [_A # c\n[ 007, T\n]| :+& self ,::K2::a [ ::T]|[ void | K2::x1 ]?|{K2 # c\n: instance|\n_Foo}\n?]",
        "::_Foo[_A[7, T] | :+ & self, ::K2::a[::T] | [void | K2::x1]? | { K2: instance | _Foo }?]",
    ),
];

#[test]
fn tuples_and_records(rt: HostRuntime) -> Result<(), Fail> {
    assert_eq!(rt; types_apart(rt.alloc(), BRACKETS)?.as_str(), "");
    Ok(())
}

// Parameters of all sorts, blocks and results.
const METHODS: &[(&str, &str)] = &[
    ("[ T , U ](T,U)->[T,U]", "[T, U] (T, U) -> [T, U]"),
    ("[A](A[A], A::B[A])->A", "[A] (A[A], A::B[A]) -> A"),
    ("()->A", "() -> A"),
    ("()->(A|B)", "() -> (A | B)"),
    ("()->(^->A)?", "() -> (^() -> A)?"),
    ("(?a: (A|B) x, b: C?)->D", "(?a: A | B, b: C?) -> D"),
    ("(A|B a, C&D b)->E", "(A | B a, C & D b) -> E"),
    ("(*A,B)->C", "(*A, B) -> C"),
    ("(**A a)->B", "(**A a) -> B"),
    ("((A|B)? a)->C", "((A | B)? a) -> C"),
    (
        "(U\n? ) ? { ( ?\na: 170141183460469231731687303715884105727 )\n-> (U\n)}-> a # end",
        "(U?) ?{ (?a: 170141183460469231731687303715884105727) -> U } -> a",
    ),
    (
        "( )->^ ( ?Foo :: String ::A bar_baz , top %a(x (y) ? ,\r\n** #\nvoid été ) ->Zä # end",
        "() -> ^(?Foo::String::A bar_baz, top?, **void été) -> Zä",
    ),
    (
        "( ? T::T::abar_baz , # c\n(false\n|Foo\n& # c\n'' ) ? # c\n,? x1 : \"\\\"\\\\\\n\"bar_baz) -> _A # end",
        r#"(?T::T::abar_baz, (false | Foo & "")?, ?x1: "\"\\\n") -> _A"#,
    ),
    (
        "-> ^ ( [\n\"a\" , :A # c\n] |\n^ -> -1_2_3 # c\n?\n, x1 x1 # c\n, * 0 ) -> nil # end",
        r#"() -> ^(["a", :A] | ^() -> -123?, x1 x1, *0) -> nil"#,
    ),
    (
        "( ( ^ ( _X1 ) ->\ntrue ) , bool\nextend\n, :!\rinterface ) -> :1 ?",
        "(^(_X1) -> true, bool extend, :! interface) -> (:1)?",
    ),
    ("() -> (Integer | String)?", "() -> (Integer | String)?"),
];

#[test]
fn methods(rt: HostRuntime) -> Result<(), Fail> {
    assert_eq!(rt; methods_apart(rt.alloc(), METHODS)?.as_str(), "");
    Ok(())
}

// A `?` behind the result of a proc is the result's.
const INNER: &[(&str, &str)] = &[
    ("^() -> Integer?", "Integer?"),
    ("(^() -> Integer?)?", "^() -> Integer?"),
    ("^() -> (Integer | String)?", "(Integer | String)?"),
    ("((Integer | String)?)?", "(Integer | String)?"),
];

#[test]
fn the_types_inside(rt: HostRuntime) -> Result<(), Fail> {
    assert_eq!(rt; inner_apart(rt.alloc(), INNER)?.as_str(), "");
    Ok(())
}
