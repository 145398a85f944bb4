use crate::shown::shown;
use std::test::Fail;

const WORDS: &[(&str, &str)] = &[
    // a keyword where a name stands is a name
    (
        "x.class if A",
        "Identifier \"x\" 0-1, Sign(Dot) 1-2, NamedWord \"class\" 2-7, +Keyword(If) 8-10, +Constant \"A\" 11-12, End 12-12",
    ),
    (
        "def self.end?; nil; end",
        "Keyword(Def) 0-3, +NamedSelf \"self\" 4-8, Sign(Dot) 8-9, NamedWord \"end?\" 9-13, Sign(Semicolon) 13-14, +Keyword(Nil) 15-18, Sign(Semicolon) 18-19, +Keyword(End) 20-23, End 23-23",
    ),
    (
        "def +(other)",
        "Keyword(Def) 0-3, +NamedOperator \"+\" 4-5, Sign(LeftParen) 5-6, Identifier \"other\" 6-11, Sign(RightParen) 11-12, End 12-12",
    ),
    (
        "alias a= :\"b\" #c",
        "Keyword(Alias) 0-5, +NamedWord \"a\" 6-7, Sign(Equals) 7-8, +SymbolOpen 9-11, Part \"b\" 11-12, SymbolClose 12-13, +End 16-16",
    ),
    // a label
    (
        "{a?: 1, B: c::D}",
        "Prefix(LeftBrace) 0-1, Label \"a?\" 1-4, +Integer 1 5-6, Sign(Comma) 6-7, +Label \"B\" 8-10, +Identifier \"c\" 11-12, Sign(ColonColon) 12-14, NamedConstant \"D\" 14-15, Sign(RightBrace) 15-16, End 16-16",
    ),
    (
        "a ?:b",
        "Identifier \"a\" 0-1, +Sign(Question) 2-3, Symbol \"b\" 3-5, End 5-5",
    ),
    // a mark before a single `=`
    (
        "a!= 1; b? = 2; c?==3",
        "Identifier \"a\" 0-1, Sign(BangEquals) 1-3, +Integer 1 4-5, Sign(Semicolon) 5-6, +Identifier \"b?\" 7-9, +Sign(Equals) 10-11, +Integer 2 12-13, Sign(Semicolon) 13-14, +Identifier \"c?\" 15-17, Sign(EqualsEquals) 17-19, Integer 3 19-20, End 20-20",
    ),
    // past ASCII
    (
        "été.é1",
        "Identifier \"été\" 0-5, Sign(Dot) 5-6, NamedWord \"é1\" 6-9, End 9-9",
    ),
    (
        "@a @@b $1c",
        "InstanceVariable \"@a\" 0-2, +ClassVariable \"@@b\" 3-6, +GlobalVariable \"$1c\" 7-10, End 10-10",
    ),
    ("@ a", "no token 0-1"),
    (
        "defined? __FILE__",
        "Keyword(Defined) 0-8, +Keyword(File) 9-17, End 17-17",
    ),
];

#[test]
fn words_and_names(rt: HostRuntime) -> Result<(), Fail> {
    let alloc = rt.alloc();
    for row in WORDS {
        assert_eq!(rt; shown(alloc, row.0)?.as_str(), row.1);
    }
    Ok(())
}

const REFUSED: &[(&str, &str)] = &[
    ("BEGIN {", "BEGIN 0-5"),
    ("for a", "for 0-3"),
    (
        "x.for :for",
        "Identifier \"x\" 0-1, Sign(Dot) 1-2, NamedWord \"for\" 2-5, +Symbol \"for\" 6-10, End 10-10",
    ),
    ("a _1", "numbered parameter 2-4"),
    ("\n__END__\r\n", "__END__ 1-8"),
    (
        "__END__ a",
        "Identifier \"__END__\" 0-7, +Identifier \"a\" 8-9, End 9-9",
    ),
    ("f(...)", "forwarding 2-5"),
];

#[test]
fn words_that_are_refused(rt: HostRuntime) -> Result<(), Fail> {
    let alloc = rt.alloc();
    for row in REFUSED {
        assert_eq!(rt; shown(alloc, row.0)?.as_str(), row.1);
    }
    Ok(())
}

const NUMBERS: &[(&str, &str)] = &[
    (
        "1_000 0x1F 0b1_0 0o17 017",
        "Integer 1000 0-5, +Integer 31 6-10, +Integer 2 11-16, +Integer 15 17-21, +Integer 17 22-25, End 25-25",
    ),
    (
        "a -1 - b -1",
        "Identifier \"a\" 0-1, +Integer -1 2-4, +Sign(Minus) 5-6, +Identifier \"b\" 7-8, +Integer -1 9-11, End 11-11",
    ),
    (
        "-170141183460469231731687303715884105728",
        "Integer -170141183460469231731687303715884105728 0-40, End 40-40",
    ),
    (
        "170141183460469231731687303715884105728",
        "wide integer 0-39",
    ),
    ("1.5e-3", "float 0-6"),
    ("-2ri", "imaginary 0-4"),
    ("3r", "rational 0-2"),
    (
        "1.a 1..2",
        "Integer 1 0-1, Sign(Dot) 1-2, NamedWord \"a\" 2-3, +Integer 1 4-5, Sign(DotDot) 5-7, Integer 2 7-8, End 8-8",
    ),
    ("0b2", "Integer 0 0-1, Identifier \"b2\" 1-3, End 3-3"),
];

#[test]
fn numbers(rt: HostRuntime) -> Result<(), Fail> {
    let alloc = rt.alloc();
    for row in NUMBERS {
        assert_eq!(rt; shown(alloc, row.0)?.as_str(), row.1);
    }
    Ok(())
}

const TEXTS: &[(&str, &str)] = &[
    (
        "'a\\'\\n\\\\'",
        "StringOpen 0-1, Part \"a'\\\\n\\\\\" 1-8, StringClose 8-9, End 9-9",
    ),
    (
        " \"a\\n\\u{e9}\\u00e9\\q#{b}#c\"",
        "+StringOpen 1-2, Part \"a\\nééq\" 2-19, CodeOpen 19-21, Identifier \"b\" 21-22, CodeClose 22-23, Part \"#c\" 23-25, StringClose 25-26, End 26-26",
    ),
    // code in a text in code
    (
        "\"#{\"#{a}}\"}\"",
        "StringOpen 0-1, CodeOpen 1-3, StringOpen 3-4, CodeOpen 4-6, Identifier \"a\" 6-7, CodeClose 7-8, Part \"}\" 8-9, StringClose 9-10, CodeClose 10-11, StringClose 11-12, End 12-12",
    ),
    (
        ":\"a#{1}b\"",
        "SymbolOpen 0-2, Part \"a\" 2-3, CodeOpen 3-5, Integer 1 5-6, CodeClose 6-7, Part \"b\" 7-8, SymbolClose 8-9, End 9-9",
    ),
    (
        "x /a\\/b/mi; x / y",
        "Identifier \"x\" 0-1, +RegexpOpen 2-3, Part \"a\\\\/b\" 3-7, RegexpClose \"mi\" 7-10, Sign(Semicolon) 10-11, +Identifier \"x\" 12-13, +Sign(Slash) 14-15, +Identifier \"y\" 16-17, End 17-17",
    ),
    (
        "x /= 2; /=a/",
        "Identifier \"x\" 0-1, +Assigning \"/\" 2-4, +Integer 2 5-6, Sign(Semicolon) 6-7, +RegexpOpen 8-9, Part \"=a\" 9-11, RegexpClose \"\" 11-12, End 12-12",
    ),
    (
        ":a= :[]= :+@ :a? ::B",
        "Symbol \"a=\" 0-3, +Symbol \"[]=\" 4-8, +Symbol \"+@\" 9-12, +Symbol \"a?\" 13-16, +Sign(ColonColon) 17-19, NamedConstant \"B\" 19-20, End 20-20",
    ),
    ("\"a", "no token 0-1"),
    ("{ \"#{ /a } ", "no token 6-7"),
    (
        "%w[a\n#{b} c] %i(d)",
        "WordsOpen Strings 0-3, Word \"a\" 3-4, Word \"#{b}\" 5-9, Word \"c\" 10-11, WordsClose 11-12, +Sign(Percent) 13-14, Identifier \"i\" 14-15, Sign(LeftParen) 15-16, Identifier \"d\" 16-17, Sign(RightParen) 17-18, End 18-18",
    ),
    ("%w|a|", "no token 0-1"),
];

#[test]
fn texts(rt: HostRuntime) -> Result<(), Fail> {
    let alloc = rt.alloc();
    for row in TEXTS {
        assert_eq!(rt; shown(alloc, row.0)?.as_str(), row.1);
    }
    Ok(())
}

const HEREDOCS: &[(&str, &str)] = &[
    (
        "f(<<A, <<~B)\na#{b}\nA\n\\n\n  B\n1",
        "Identifier \"f\" 0-1, Sign(LeftParen) 1-2, HeredocOpen 2-5, Part \"a\" 13-14, CodeOpen 14-16, Identifier \"b\" 16-17, CodeClose 17-18, Part \"\\n\" 18-19, HeredocClose of 13-19 5-5, Sign(Comma) 5-6, +HeredocOpen 7-11, Part \"\\n\\n\" 21-24, HeredocClose of 21-24 11-11, Sign(RightParen) 11-12, Newline 12-13, Integer 1 28-29, End 29-29",
    ),
    (
        "a(<<-'A').b\n\\n#{c}\n A\n.d",
        "Identifier \"a\" 0-1, Sign(LeftParen) 1-2, HeredocOpen 2-8, Part \"\\\\n#{c}\\n\" 12-19, HeredocClose of 12-19 8-8, Sign(RightParen) 8-9, Sign(Dot) 9-10, NamedWord \"b\" 10-11, +Sign(Dot) 22-23, NamedWord \"d\" 23-24, End 24-24",
    ),
    (
        "<<A\n#{<<B}\nb\nB\nA\n",
        "HeredocOpen 0-3, CodeOpen 4-6, HeredocOpen 6-9, Part \"b\\n\" 11-13, HeredocClose of 11-13 9-9, CodeClose 9-10, Part \"\\n\" 10-15, HeredocClose of 4-15 3-3, Newline 3-4, End 17-17",
    ),
    ("a <<A\n", "no token 2-3"),
    (
        "a << A; class << self",
        "Identifier \"a\" 0-1, +Sign(LessLess) 2-4, +Constant \"A\" 5-6, Sign(Semicolon) 6-7, +Keyword(Class) 8-13, +Prefix(LessLess) 14-16, +Keyword(SelfWord) 17-21, End 21-21",
    ),
];

#[test]
fn heredocs(rt: HostRuntime) -> Result<(), Fail> {
    let alloc = rt.alloc();
    for row in HEREDOCS {
        assert_eq!(rt; shown(alloc, row.0)?.as_str(), row.1);
    }
    Ok(())
}

const LINES: &[(&str, &str)] = &[
    (
        "\na # b\n  # c\n\n.d\n&.e\n..1",
        "Newline 0-1, Identifier \"a\" 1-2, +Newline 6-7, +Sign(Dot) 14-15, NamedWord \"d\" 15-16, +Sign(SafeDot) 17-19, NamedWord \"e\" 19-20, Newline 20-21, Sign(DotDot) 21-23, Integer 1 23-24, End 24-24",
    ),
    (
        "a +\nb\n[\n1,\n2]\n",
        "Identifier \"a\" 0-1, +Sign(Plus) 2-3, +Identifier \"b\" 4-5, Newline 5-6, Prefix(LeftBracket) 6-7, +Integer 1 8-9, Sign(Comma) 9-10, +Integer 2 11-12, Sign(RightBracket) 12-13, Newline 13-14, End 14-14",
    ),
    (
        "\n=begin\na\n=end\nb\n =begin",
        "Newline 0-1, Identifier \"b\" 15-16, Newline 16-17, +Sign(Equals) 18-19, Keyword(Begin) 19-24, End 24-24",
    ),
    (
        "=begin\na",
        "Sign(Equals) 0-1, Keyword(Begin) 1-6, Newline 6-7, Identifier \"a\" 7-8, End 8-8",
    ),
    (
        "a \\\n  b\r\nc\rd",
        "Identifier \"a\" 0-1, +Identifier \"b\" 6-7, Newline 7-9, Identifier \"c\" 9-10, Newline 10-11, Identifier \"d\" 11-12, End 12-12",
    ),
];

#[test]
fn lines_and_comments(rt: HostRuntime) -> Result<(), Fail> {
    let alloc = rt.alloc();
    for row in LINES {
        assert_eq!(rt; shown(alloc, row.0)?.as_str(), row.1);
    }
    Ok(())
}

const SIGNS: &[(&str, &str)] = &[
    (
        "a ||= b && !c <=> d",
        "Identifier \"a\" 0-1, +Assigning \"||\" 2-5, +Identifier \"b\" 6-7, +Sign(AmpersandAmpersand) 8-10, +Sign(Bang) 11-12, Identifier \"c\" 12-13, +Sign(Spaceship) 14-17, +Identifier \"d\" 18-19, End 19-19",
    ),
    (
        "f *a, **b, &c",
        "Identifier \"f\" 0-1, +Prefix(Star) 2-3, Identifier \"a\" 3-4, Sign(Comma) 4-5, +Prefix(StarStar) 6-8, Identifier \"b\" 8-9, Sign(Comma) 9-10, +Prefix(Ampersand) 11-12, Identifier \"c\" 12-13, End 13-13",
    ),
    (
        "f [1]; f[1]; f[ 1 ]",
        "Identifier \"f\" 0-1, +Prefix(LeftBracket) 2-3, Integer 1 3-4, Sign(RightBracket) 4-5, Sign(Semicolon) 5-6, +Identifier \"f\" 7-8, Sign(LeftBracket) 8-9, Integer 1 9-10, Sign(RightBracket) 10-11, Sign(Semicolon) 11-12, +Identifier \"f\" 13-14, Sign(LeftBracket) 14-15, +Integer 1 16-17, +Sign(RightBracket) 18-19, End 19-19",
    ),
    (
        "a ? b : c",
        "Identifier \"a\" 0-1, +Sign(Question) 2-3, +Identifier \"b\" 4-5, +Sign(Colon) 6-7, +Identifier \"c\" 8-9, End 9-9",
    ),
    (
        "a::B ::C",
        "Identifier \"a\" 0-1, Sign(ColonColon) 1-3, NamedConstant \"B\" 3-4, +Sign(ColonColon) 5-7, NamedConstant \"C\" 7-8, End 8-8",
    ),
    (
        "-> { }",
        "Sign(Arrow) 0-2, +Prefix(LeftBrace) 3-4, +Sign(RightBrace) 5-6, End 6-6",
    ),
    ("`", "no token 0-1"),
    ("a é\u{301} \u{a0}", "no token 7-9"),
];

#[test]
fn signs(rt: HostRuntime) -> Result<(), Fail> {
    let alloc = rt.alloc();
    for row in SIGNS {
        assert_eq!(rt; shown(alloc, row.0)?.as_str(), row.1);
    }
    Ok(())
}
