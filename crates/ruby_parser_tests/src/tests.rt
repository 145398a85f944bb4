use crate::shown::shown;
use src_text::Mem;
use std::alloc::Global;
use std::test::Fail;

// The texts whose tree or refusal isn't the one beside it, each with what it is.
fn differences(alloc: Global, rows: &[(&str, &str)]) -> Mem<String> {
    let mut out = String::new(alloc);
    for row in rows {
        let found = shown(alloc, row.0)?;
        if found.as_str() != row.1 {
            out.push_str(row.0)?;
            out.push_str(" => ")?;
            out.push_str(found.as_str())?;
            out.push_str("\n")?;
        }
    }
    Ok(out)
}

// What tells most of the rules.
const TELLING: &[(&str, &str)] = &[
    (
        "x = <<A\ntext\nA\n",
        r#"(program 0-15 (asgn 0-7 (local 0-1 x) (str_parts 4-7 "text\n")))"#,
    ),
    (
        "<<-A\n b\n  A\n",
        r#"(program 0-12 (str_parts 0-4 " b\n"))"#,
    ),
    (
        "<<~A\n  b\n    c\n  A\n",
        r#"(program 0-19 (str_parts 0-4 "  b\n    c\n"))"#,
    ),
    (
        "<<'A'\n#{b} \\n\nA\n",
        "(program 0-16 (str_parts 0-5 \"#{b} \\\\n\\n\"))",
    ),
    (
        "a [\n1]",
        r#"(program 0-6 (call 0-6 - a 0-1 ((array 2-6 (int 4-5 1))) -))"#,
    ),
    (
        "a -1",
        r#"(program 0-4 (call 0-4 - a 0-1 ((int 2-4 -1)) -))"#,
    ),
    (
        "a - 1",
        r#"(program 0-5 (call 0-5 (name 0-1 a) - 2-3 ((int 4-5 1)) -))"#,
    ),
    (
        "a [1]",
        r#"(program 0-5 (call 0-5 - a 0-1 ((array 2-5 (int 3-4 1))) -))"#,
    ),
    (
        "a /b/",
        r#"(program 0-5 (call 0-5 - a 0-1 ((regexp 2-5 "" "b")) -))"#,
    ),
    (
        "f a:, b: 1",
        r#"(program 0-10 (call 0-10 - f 0-1 ((label a 2-4 (name 2-3 a)) (label b 6-8 (int 9-10 1))) -))"#,
    ),
    ("a ? b: c", r#"Syntax 4-6"#),
    (
        "a.for",
        r#"(program 0-5 (call 0-5 (name 0-1 a) for 2-5 () -))"#,
    ),
    (
        "def for; end",
        r#"(program 0-12 (def 0-12 for 4-7 () (seq 8-8)))"#,
    ),
    ("eval(1); if a", r#"Syntax 13-13"#),
    ("` 1.5", r#"Syntax 0-1"#),
    ("eval(1) )", r#"Syntax 8-9"#),
    ("a.eval 1.5", r#"Unsupported 7-10 float"#),
    ("2ri", r#"Unsupported 0-3 imaginary"#),
    ("1.5i", r#"Unsupported 0-4 imaginary"#),
    ("redo", r#"Unsupported 0-4 redo"#),
    ("f { eval(1) }", r#"Unsupported 4-11 eval"#),
    ("a.eval b", r#"Unsupported 0-8 eval"#),
    (
        "if a then b elsif c..d then e end",
        r#"Unsupported 18-22 flip-flop"#,
    ),
    (
        "a += 1",
        r#"(program 0-6 (asgn 0-6 (local 0-1 a) (call 0-6 (name 0-1 a) + 2-4 ((int 5-6 1)) -)))"#,
    ),
    (
        "a.b += 1",
        r#"(program 0-8 (asgn_call 0-8 (name 0-1 a) b= 2-3 ((call 0-8 (call 0-3 (name 0-1 a) b 2-3 () -) + 4-6 ((int 7-8 1)) -))))"#,
    ),
    (
        "a[1] += 2",
        r#"(program 0-9 (asgn_call 0-9 (name 0-1 a) []= 1-2 ((int 2-3 1) (call 0-9 (call 0-4 (name 0-1 a) [] 1-2 ((int 2-3 1)) -) + 5-7 ((int 8-9 2)) -))))"#,
    ),
    (
        "a, b = c, d = 1, 2",
        r#"(program 0-18 (multi_asgn 0-18 ((local 0-1 a) (local 3-4 b)) (values 7-18 (name 7-8 c) (asgn 10-15 (local 10-11 d) (int 14-15 1)) (int 17-18 2))))"#,
    ),
    (
        "a, *b = c",
        r#"(program 0-9 (multi_asgn 0-9 ((local 0-1 a) (splat (local 4-5 b))) (values 8-9 (name 8-9 c))))"#,
    ),
    (
        "a \\\n b",
        r#"(program 0-6 (call 0-6 - a 0-1 ((name 5-6 b)) -))"#,
    ),
    ("=begin\na\n=end\nb", r#"(program 0-15 (name 14-15 b))"#),
    ("a # c\nb", r#"(program 0-7 (name 0-1 a) (name 6-7 b))"#),
    (
        "a\n# c\n.b",
        r#"(program 0-8 (call 0-8 (name 0-1 a) b 7-8 () -))"#,
    ),
    ("a\n\n.b", r#"Syntax 3-4"#),
    ("\"\\u00e9\"", r#"(program 0-8 (str 0-8 "é"))"#),
    ("\"\\u{1F600}\"", r#"(program 0-11 (str 0-11 "😀"))"#),
    ("'it\\'s'", r#"(program 0-7 (str 0-7 "it's"))"#),
    (
        "split(/=/)",
        r#"(program 0-10 (call 0-10 - split 0-5 ((regexp 6-9 "" "=")) -))"#,
    ),
    (
        "x /= 2",
        r#"(program 0-6 (asgn 0-6 (local 0-1 x) (call 0-6 (name 0-1 x) / 2-4 ((int 5-6 2)) -)))"#,
    ),
    (
        "%w[a b c]",
        r#"(program 0-9 (words 0-9 strings "a" "b" "c"))"#,
    ),
    (
        "{ :a=>1 }",
        r#"(program 0-9 (hash 0-9 (pair (sym 2-4 "a") (int 6-7 1))))"#,
    ),
    (
        "begin a end",
        r#"(program 0-11 (begin 0-11 (seq 6-7 (name 6-7 a)) () - -))"#,
    ),
    (
        "begin; end",
        r#"(program 0-10 (begin 0-10 (seq 5-5) () - -))"#,
    ),
    (
        "unless a\nb\nelse\nc\nend",
        r#"(program 0-21 (if 0-21 (arm (name 7-8 a) (seq 16-17 (name 16-17 c))) (seq 9-10 (name 9-10 b))))"#,
    ),
    (
        "unless a then b elsif c then d else e end",
        r#"(program 0-41 (if 0-41 (arm (name 7-8 a) (if 16-41 (arm (name 22-23 c) (seq 29-30 (name 29-30 d))) (seq 36-37 (name 36-37 e)))) (seq 14-15 (name 14-15 b))))"#,
    ),
    (
        "case a\nwhen b, c\nd\nwhen e then f\nelse g\nend",
        r#"(program 0-43 (case 0-43 (name 5-6 a) (when ((name 12-13 b) (name 15-16 c)) (seq 17-18 (name 17-18 d))) (when ((name 24-25 e)) (seq 31-32 (name 31-32 f))) (seq 38-39 (name 38-39 g))))"#,
    ),
    (
        "def a(b) = b + 1",
        r#"(program 0-16 (def 0-16 a 4-5 ((req b 6-7)) (seq 11-16 (call 11-16 (name 11-12 b) + 13-14 ((int 15-16 1)) -))))"#,
    ),
    ("class A; a; end end", r#"Syntax 16-19"#),
    (
        "-> (a) { a }",
        r#"(program 0-12 (lambda 0-12 ((req a 4-5)) (seq 9-10 (name 9-10 a))))"#,
    ),
    (
        "yield a: 1",
        r#"(program 0-10 (yield 0-10 ((label a 6-8 (int 9-10 1))) -))"#,
    ),
    ("while", r#"Syntax 5-5"#),
    (
        "def describe(value)\n  case value\n  when nil then \"nothing\"\n  when Integer, Range\n    \"number #{value}\"\n  when /\\A[a-z]+\\z/i then \"word\"\n  when ->(v) { v.respond_to?(:each) }\n    value.map { |v| describe(v) }.join(\", \")\n  else\n    value.inspect\n  end\nend\n",
        r#"(program 0-254 (def 0-253 describe 4-12 ((req value 13-18)) (seq 22-249 (case 22-249 (name 27-32 value) (when ((nil 40-43)) (seq 49-58 (str 49-58 "nothing"))) (when ((const 66-73 Integer) (const 75-80 Range)) (seq 85-102 (str_parts 85-102 "number " (seq 93-101 (name 95-100 value))))) (when ((regexp 110-123 "i" "\\A[a-z]+\\z")) (seq 129-135 (str 129-135 "word"))) (when ((lambda 143-173 ((req v 146-147)) (seq 151-171 (call 151-171 (name 151-152 v) respond_to? 153-164 ((sym 165-170 "each")) -)))) (seq 178-218 (call 178-218 (call 178-207 (name 178-183 value) map 184-187 () (block 188-207 ((req v 191-192)) (seq 194-205 (call 194-205 - describe 194-202 ((name 203-204 v)) -)))) join 208-212 ((str 213-217 ", ")) -))) (seq 230-243 (call 230-243 (name 230-235 value) inspect 236-243 () -))))))"#,
    ),
    (
        "((((((((((((((((((((((((((((((((((((((((((((((((((((((((((((((((",
        r#"TooDeep 64-64"#,
    ),
];

#[test]
fn telling_texts(rt: HostRuntime) -> Result<(), Fail> {
    assert_eq!(rt; differences(rt.alloc(), TELLING)?.as_str(), "");
    Ok(())
}

// One for each way in which a primary is written.
const PRIMARIES: &[(&str, &str)] = &[
    ("42", r#"(program 0-2 (int 0-2 42))"#),
    ("'a' \"b\"", r#"(program 0-7 (str_parts 0-7 "ab"))"#),
    (":a", r#"(program 0-2 (sym 0-2 "a"))"#),
    (
        "/a#{b}/i",
        r#"(program 0-8 (regexp 0-8 "i" "a" (seq 2-6 (name 4-5 b))))"#,
    ),
    ("%w[a b]", r#"(program 0-7 (words 0-7 strings "a" "b"))"#),
    (
        "a(<<T, 1)\nx #{y}\nT\n",
        r#"(program 0-19 (call 0-9 - a 0-1 ((str_parts 2-5 "x " (seq 12-16 (name 14-15 y)) "\n") (int 7-8 1)) -))"#,
    ),
    ("nil", r#"(program 0-3 (nil 0-3))"#),
    ("true", r#"(program 0-4 (true 0-4))"#),
    ("false", r#"(program 0-5 (false 0-5))"#),
    ("self", r#"(program 0-4 (self 0-4))"#),
    ("__FILE__", r#"(program 0-8 (file 0-8))"#),
    ("@a", r#"(program 0-2 (ivar 0-2 @a))"#),
    ("@@a", r#"(program 0-3 (cvar 0-3 @@a))"#),
    ("$a", r#"(program 0-2 (gvar 0-2 $a))"#),
    ("::A", r#"(program 0-3 (const 0-3 ::A))"#),
    (
        "Integer(\"1\") { |x| x }",
        r#"(program 0-22 (call 0-22 - Integer 0-7 ((str 8-11 "1")) (block 13-22 ((req x 16-17)) (seq 19-20 (name 19-20 x)))))"#,
    ),
    ("A::B", r#"(program 0-4 (const 0-4 A::B))"#),
    (
        "(a; b)",
        r#"(program 0-6 (seq 0-6 (name 1-2 a) (name 4-5 b)))"#,
    ),
    (
        "[1, *a, b: 2]",
        r#"(program 0-13 (array 0-13 (int 1-2 1) (splat (name 5-6 a)) (hash 8-12 (label b 8-10 (int 11-12 2)))))"#,
    ),
    (
        "{ a: 1, \"b\" => 2, **c }",
        r#"(program 0-23 (hash 0-23 (label a 2-4 (int 5-6 1)) (pair (str 8-11 "b") (int 15-16 2)) (double_splat (name 20-21 c))))"#,
    ),
    (
        "->(a, b = 1) { a + b }",
        r#"(program 0-22 (lambda 0-22 ((req a 3-4) (opt b 6-7 (int 10-11 1))) (seq 15-20 (call 15-20 (name 15-16 a) + 17-18 ((name 19-20 b)) -))))"#,
    ),
    (
        "-> a do a end",
        r#"(program 0-13 (lambda 0-13 ((req a 3-4)) (seq 8-9 (name 8-9 a))))"#,
    ),
    (
        "if a then b elsif c then d else e end",
        r#"(program 0-37 (if 0-37 (arm (name 3-4 a) (seq 10-11 (name 10-11 b))) (arm (name 18-19 c) (seq 25-26 (name 25-26 d))) (seq 32-33 (name 32-33 e))))"#,
    ),
    (
        "unless a\n  b\nelse\n  c\nend",
        r#"(program 0-25 (if 0-25 (arm (name 7-8 a) (seq 20-21 (name 20-21 c))) (seq 11-12 (name 11-12 b))))"#,
    ),
    (
        "case a\nwhen 1, *b then c\nelse d\nend",
        r#"(program 0-35 (case 0-35 (name 5-6 a) (when ((int 12-13 1) (splat (name 16-17 b))) (seq 23-24 (name 23-24 c))) (seq 30-31 (name 30-31 d))))"#,
    ),
    (
        "while a do b end",
        r#"(program 0-16 (while 0-16 (name 6-7 a) (seq 11-12 (name 11-12 b))))"#,
    ),
    (
        "until a\n  b\nend",
        r#"(program 0-15 (until 0-15 (name 6-7 a) (seq 10-11 (name 10-11 b))))"#,
    ),
    (
        "begin\n  a\nrescue A, B => e\n  b\nelse\n  c\nensure\n  d\nend",
        r#"(program 0-54 (begin 0-54 (seq 8-9 (name 8-9 a)) ((rescue ((const 17-18 A) (const 20-21 B)) (e 25-26) (seq 29-30 (name 29-30 b)))) (seq 38-39 (name 38-39 c)) (seq 49-50 (name 49-50 d))))"#,
    ),
    (
        "def m = yield(1)",
        r#"(program 0-16 (def 0-16 m 4-5 () (seq 8-16 (yield 8-16 ((int 14-15 1)) -))))"#,
    ),
    (
        "def m\n  super\nend",
        r#"(program 0-17 (def 0-17 m 4-5 () (seq 8-13 (super 8-13 - -))))"#,
    ),
    (
        "def m(a) = super(a)",
        r#"(program 0-19 (def 0-19 m 4-5 ((req a 6-7)) (seq 11-19 (super 11-19 ((name 17-18 a)) -))))"#,
    ),
    (
        "loop do break 1, 2 end",
        r#"(program 0-22 (call 0-22 - loop 0-4 () (block 5-22 () (seq 8-18 (break 8-18 (int 14-15 1) (int 17-18 2))))))"#,
    ),
    (
        "def m; return; end",
        r#"(program 0-18 (def 0-18 m 4-5 () (seq 7-13 (return 7-13))))"#,
    ),
    (
        "a.each { |x| next x if x }",
        r#"(program 0-26 (call 0-26 (name 0-1 a) each 2-6 () (block 7-26 ((req x 10-11)) (seq 13-24 (if 13-24 (arm (name 23-24 x) (next 13-19 (name 18-19 x))) -)))))"#,
    ),
    (
        "def self.m(a, b = 1, *c, d, e:, f: 2, **g, &h)\n  a\nend",
        r#"(program 0-54 (def_self 0-54 m 9-10 ((req a 11-12) (opt b 14-15 (int 18-19 1)) (rest c 22-23) (post d 25-26) (key e 28-29) (optkey f 32-33 (int 35-36 2)) (keyrest g 40-41) (blockarg h 44-45)) (seq 49-50 (name 49-50 a))))"#,
    ),
    (
        "def m a, b\nend",
        r#"(program 0-14 (def 0-14 m 4-5 ((req a 6-7) (req b 9-10)) (seq 11-11)))"#,
    ),
    (
        "class << self\n  a\nend",
        r#"(program 0-21 (singleton_class 0-21 (seq 16-17 (name 16-17 a))))"#,
    ),
    (
        "class A::B < C\n  a\nend",
        r#"(program 0-22 (class 0-22 A::B 6-10 (const 13-14 C) (seq 17-18 (name 17-18 a))))"#,
    ),
    (
        "module M\n  alias b a\nend",
        r#"(program 0-24 (module 0-24 M 7-8 (seq 11-20 (alias 11-20 b 17-18 a 19-20))))"#,
    ),
    (
        "puts a, b do |x| x end",
        r#"(program 0-22 (call 0-22 - puts 0-4 ((name 5-6 a) (name 8-9 b)) (block 10-22 ((req x 14-15)) (seq 17-18 (name 17-18 x)))))"#,
    ),
];

#[test]
fn each_way_of_a_primary(rt: HostRuntime) -> Result<(), Fail> {
    assert_eq!(rt; differences(rt.alloc(), PRIMARIES)?.as_str(), "");
    Ok(())
}
