//! Checks of whole projects in memory, through the calls that the program makes.

use ports::{MemSink, MemTree, OpenGate, SureSource, is_file_map};
use src_text::{Seq, Text};
use std::alloc::Global;
use std::sync::Wait;
use std::test::Fail;
use std::thread::Threads;
use steep_run::{CheckPlan, Limit, Outcome, Part, run, run_check};

const FOO: &str = "class Foo\n  def bar: (Integer x) -> String\nend\n";

const CLEAN: &str = "No type error detected.\n";

const MISSING: &str =
    "lib/a.rb:1:8: [error] Type `::Foo` does not have method `baz` (Ruby::NoMethod)\nDetected 1 problem from 1 file.\n";

// 65,537 names, and those that the core signatures declare.
const NAMES: u64 = 65_537 + 27;

// 4,097 methods of a class, and those that its instances have from the core signatures.
const METHODS: u64 = 4_097 + 31;

// What the names of 16 times 4,096 modules begin with.
const LETTERS: [&str; 16] = [
    "A", "B", "C", "D", "E", "F", "G", "H", "I", "J", "K", "L", "M", "N", "O", "P",
];

fn file(alloc: Global, path: &str, bytes: &[u8]) -> Result<(Text, Seq<u8>), Fail> {
    let bytes = Seq::from_slice(alloc, bytes)?;
    Ok((Text::from_str(alloc, path)?, bytes))
}

// A tree of the files that aren't empty, whose listed calls fail.
fn tree(
    alloc: Global,
    ruby: (&str, &[u8]),
    signature: (&str, &[u8]),
    failing: &[u64],
) -> Result<MemTree, Fail> {
    let mut files = Vec::new(alloc);
    for (path, bytes) in [ruby, signature] {
        if !bytes.is_empty() {
            files.push(file(alloc, path, bytes)?)?;
        }
    }
    if !is_file_map(files.as_slice()) {
        return Err("no map of files".into());
    }
    let failing = Seq::from_slice(alloc, failing)?;
    Ok(MemTree::new(Seq::from_vec(files), failing))
}

// What the words answer over a tree and a sink whose listed calls fail, and what they write.
fn ran<R: Threads + Wait + Sync>(
    rt: &R,
    alloc: Global,
    words: &[&str],
    mut tree: MemTree,
    failing: &[u64],
) -> Result<(Outcome, String), Fail> {
    let mut given = Vec::new(alloc);
    for word in words {
        given.push(String::from_str(alloc, *word)?)?;
    }
    let mut source = SureSource::new(Seq::new(alloc));
    let failing = Seq::from_slice(alloc, failing)?;
    let mut sink = MemSink::new(alloc, 4000, failing, Seq::new(alloc))?;
    let outcome = run(
        rt,
        alloc,
        &given,
        &mut source,
        &mut sink,
        &mut tree,
        &OpenGate,
    );
    Ok((outcome, String::from_utf8_lossy(alloc, sink.bytes())?))
}

// What a check answers and writes of a signature beside a Ruby program that isn't small.
fn told<R: Threads + Wait + Sync>(
    rt: &R,
    alloc: Global,
    signature: &str,
) -> Result<(Outcome, String), Fail> {
    let signature = ("sig/a.rbs", signature.as_bytes());
    let tree = tree(alloc, ("lib/a.rb", b"x = 1"), signature, &[])?;
    ran(rt, alloc, &["check"], tree, &[])
}

// A class that begins so, with 4,097 methods.
fn with_methods(alloc: Global, class: &str) -> Result<String, Fail> {
    let mut text = String::from_str(alloc, class)?;
    for i in 0..4_097u32 {
        text.push_str(format!(in alloc; " def m{i}: () -> A")?.as_str())?;
    }
    text.push_str(" end")?;
    Ok(text)
}

#[test]
fn texts_are_checked_and_reported(rt: HostRuntime) -> Result<(), Fail> {
    let alloc = rt.alloc();
    let unbuilt_signature = Outcome::Unbuilt(Part::Signature);
    let unbuilt_ruby = Outcome::Unbuilt(Part::Ruby);
    let rows = [
        (b"".as_slice(), b"".as_slice(), Outcome::Clean, CLEAN),
        (
            FOO.as_bytes(),
            b"Foo.new.baz(1)",
            Outcome::Found(1),
            MISSING,
        ),
        (
            FOO.as_bytes(),
            b"Foo.new.baz\r\n\r\n",
            Outcome::Found(1),
            MISSING,
        ),
        (FOO.as_bytes(), b"Foo.new.bar(1)", Outcome::Clean, CLEAN),
        (
            FOO.as_bytes(),
            b"\nFoo.new.bar(123456789012345678)",
            Outcome::Clean,
            CLEAN,
        ),
        (
            FOO.as_bytes(),
            b"Foo.new.bar(1234567890123456789)",
            unbuilt_ruby,
            "",
        ),
        (FOO.as_bytes(), b"Foo.new.bar", unbuilt_ruby, ""),
        (FOO.as_bytes(), b"Foo.new.bar()", unbuilt_ruby, ""),
        (FOO.as_bytes(), b"Foo.new.bar(1, 2)", unbuilt_ruby, ""),
        (FOO.as_bytes(), b"Foo.new.bar(\"a\")", unbuilt_ruby, ""),
        (FOO.as_bytes(), b"Foo.new.class", unbuilt_ruby, ""),
        (FOO.as_bytes(), b"x = 1", unbuilt_ruby, ""),
        (FOO.as_bytes(), b"(Foo.new.baz)", unbuilt_ruby, ""),
        (FOO.as_bytes(), b"::Foo.new.baz", unbuilt_ruby, ""),
        (FOO.as_bytes(), b"Foo&.new.baz", unbuilt_ruby, ""),
        (FOO.as_bytes(), b"Foo.new.baz(-1)", unbuilt_ruby, ""),
        (FOO.as_bytes(), b"Foo.new.baz do end", unbuilt_ruby, ""),
        (
            FOO.as_bytes(),
            b"# a\nFoo.new.bar(1); Foo::new().baz(0x10,\n  2)",
            Outcome::Found(1),
            "lib/a.rb:2:27: [error] Type `::Foo` does not have method `baz` (Ruby::NoMethod)\nDetected 1 problem from 1 file.\n",
        ),
        (FOO.as_bytes(), b"Bar.new.baz", unbuilt_ruby, ""),
        (
            FOO.as_bytes(),
            b"Foo.new.b\xffz",
            Outcome::Found(1),
            "lib/a.rb:1:9: [error] Syntax error (Ruby::SyntaxError)\nDetected 1 problem from 1 file.\n",
        ),
        (
            b"class",
            b"def",
            Outcome::Found(2),
            "lib/a.rb:1:3: [error] Syntax error (Ruby::SyntaxError)\nsig/a.rbs:1:5: [error] Syntax error (RBS::SyntaxError)\nDetected 2 problems from 2 files.\n",
        ),
        (
            FOO.as_bytes(),
            b"Foo.new.baz?\rFoo.new.bar(1)\rFoo.new._b!(1, 22)",
            Outcome::Found(2),
            "lib/a.rb:1:8: [error] Type `::Foo` does not have method `baz?` (Ruby::NoMethod)\nlib/a.rb:3:8: [error] Type `::Foo` does not have method `_b!` (Ruby::NoMethod)\nDetected 2 problems from 1 file.\n",
        ),
        (
            b"class Foo end # \xff\xc3\xa9",
            b"Foo.new.baz",
            Outcome::Found(1),
            MISSING,
        ),
        (
            b"%a{x} class Foo def baz: (Integer,Integer) -> B end",
            b"Foo.new.baz(1, 2)",
            Outcome::Clean,
            CLEAN,
        ),
        (FOO.as_bytes(), b"Foo.new.inspect", Outcome::Clean, CLEAN),
        (
            FOO.as_bytes(),
            b"Foo.new.puts",
            Outcome::Found(1),
            "lib/a.rb:1:8: [error] Type `::Foo` does not have method `puts` (Ruby::NoMethod)\nDetected 1 problem from 1 file.\n",
        ),
        (FOO.as_bytes(), b"Foo.new.dup(1)", unbuilt_ruby, ""),
        (FOO.as_bytes(), b"Foo.new.send(1)", unbuilt_ruby, ""),
        (FOO.as_bytes(), b"Foo.new.tap", unbuilt_ruby, ""),
        (b"", b"Object.new.inspect", Outcome::Clean, CLEAN),
        (
            b"",
            b"Object.new.inspect\nObject.new.wave",
            Outcome::Found(1),
            "lib/a.rb:2:11: [error] Type `::Object` does not have method `wave` (Ruby::NoMethod)\nDetected 1 problem from 1 file.\n",
        ),
        (
            b"class String def shout: (Integer) -> String end",
            b"String.new.shout(1)\nString.new.upcase",
            Outcome::Clean,
            CLEAN,
        ),
        (b"", b"Array.new.size", unbuilt_ruby, ""),
        (b"", b"Kernel.new.inspect", unbuilt_ruby, ""),
        (b"", b"StandardError.new.message", unbuilt_ruby, ""),
        (
            b"class Foo def \xc3\xa9: ( Integer \xc3\xa9 , Integer ) -> B end",
            b"Foo.new.baz",
            Outcome::Found(1),
            MISSING,
        ),
        (
            b"class Foo def `bar`: -> B end",
            b"Foo.new.bar",
            Outcome::Clean,
            CLEAN,
        ),
        (
            b"class Foo def bar: () -> Integer? end",
            b"",
            unbuilt_signature,
            "",
        ),
        (
            b"class Foo def bar: (?Integer) -> B end",
            b"",
            unbuilt_signature,
            "",
        ),
        (
            b"class Foo def bar: (String) -> B end",
            b"",
            unbuilt_signature,
            "",
        ),
        (
            b"class Foo def self.bar: () -> B end",
            b"",
            unbuilt_signature,
            "",
        ),
        (
            b"class Foo public def bar: () -> B end",
            b"",
            unbuilt_signature,
            "",
        ),
        (
            b"class Foo def initialize: () -> B end",
            b"",
            unbuilt_signature,
            "",
        ),
        (b"class Foo def 1a: () -> B end", b"", unbuilt_signature, ""),
        (b"class Foo def A: () -> B end", b"", unbuilt_signature, ""),
        (b"class Foo def _A: () -> B end", b"", unbuilt_signature, ""),
        (b"class Foo def a?: () -> B end", b"", unbuilt_signature, ""),
        (b"class Foo < Bar end", b"", unbuilt_signature, ""),
        (b"class Foo[T] end", b"", unbuilt_signature, ""),
        (b"class ::Foo end", b"", unbuilt_signature, ""),
        (b"interface _Foo end", b"", unbuilt_signature, ""),
        (
            b"class Foo def a: () -> B def a: () -> B end",
            b"",
            unbuilt_signature,
            "",
        ),
        (b"class Foo end class Foo end", b"", unbuilt_signature, ""),
        (b"class Foo < Object end", b"(", unbuilt_signature, ""),
        (
            b"module A[T] def a: (T) -> T end class Foo include A[Integer] alias b a end",
            b"Foo.new.baz",
            unbuilt_signature,
            "",
        ),
    ];
    for (signature, ruby, outcome, wanted) in rows {
        let tree = tree(alloc, ("lib/a.rb", ruby), ("sig/a.rbs", signature), &[])?;
        let (answer, written) = ran(&rt, alloc, &["check"], tree, &[])?;
        assert_eq!(rt; answer, outcome, "{signature:?} {ruby:?}");
        assert_eq!(rt; written.as_str(), wanted, "{signature:?} {ruby:?}");
    }
    Ok(())
}

#[test]
fn refused_signatures_are_reported(rt: HostRuntime) -> Result<(), Fail> {
    let alloc = rt.alloc();
    let rows = [
        ("class", "sig/a.rbs:1:5: [error] Syntax error"),
        ("class foo end", "sig/a.rbs:1:6: [error] Syntax error"),
        ("class Foo\n", "sig/a.rbs:2:0: [error] Syntax error"),
        (
            "class Foo def bar: (Integer,) -> B end",
            "sig/a.rbs:1:28: [error] Syntax error",
        ),
        (
            "class Foo def bar:Integer end",
            "sig/a.rbs:1:17: [error] Syntax error",
        ),
        ("%a{x class Foo end", "sig/a.rbs:1:0: [error] Syntax error"),
    ];
    for (signature, wanted) in rows {
        let wanted = format!(in alloc;
            "{wanted} (RBS::SyntaxError)\nDetected 1 problem from 1 file.\n"
        )?;
        let signature = ("sig/a.rbs", signature.as_bytes());
        let quiet = tree(alloc, ("lib/a.rb", b"\n"), signature, &[])?;
        let (answer, written) = ran(&rt, alloc, &["check"], quiet, &[])?;
        assert_eq!(rt; answer, Outcome::Found(1), "{wanted}");
        assert_eq!(rt; written.as_str(), wanted.as_str());
        let calling = tree(alloc, ("lib/a.rb", b"Object.new.inspect"), signature, &[])?;
        let (answer, written) = ran(&rt, alloc, &["check"], calling, &[])?;
        assert_eq!(rt; answer, Outcome::Found(1), "{wanted}");
        assert_eq!(rt; written.as_str(), wanted.as_str());
        let calling = tree(alloc, ("lib/a.rb", b"Foo.new.bar"), signature, &[])?;
        let (answer, written) = ran(&rt, alloc, &["check"], calling, &[])?;
        assert_eq!(rt; answer, Outcome::Unbuilt(Part::Ruby), "{wanted}");
        assert_eq!(rt; written.as_str(), "");
    }
    Ok(())
}

#[test]
fn refused_ruby_is_reported(rt: HostRuntime) -> Result<(), Fail> {
    let alloc = rt.alloc();
    let rows = [
        ("def", "1:3: [error] Syntax error (Ruby::SyntaxError)"),
        ("Foo.new.?", "1:8: [error] Syntax error (Ruby::SyntaxError)"),
        (
            "Foo.new.b\u{fffd}z",
            "1:9: [error] Syntax error (Ruby::SyntaxError)",
        ),
        (
            "x = 1.5",
            "1:4: [error] Syntax is not supported: float (Ruby::UnsupportedSyntax)",
        ),
        (
            "Foo.new.baz\nif 1..2 then end",
            "2:3: [error] Syntax is not supported: flip-flop (Ruby::UnsupportedSyntax)",
        ),
        (
            "eval(1)\nretry",
            "2:0: [error] Syntax is not supported: retry (Ruby::UnsupportedSyntax)",
        ),
    ];
    for (ruby, wanted) in rows {
        let wanted = format!(in alloc; "lib/a.rb:{wanted}\nDetected 1 problem from 1 file.\n")?;
        let ruby = ("lib/a.rb", ruby.as_bytes());
        let tree = tree(alloc, ruby, ("sig/a.rbs", FOO.as_bytes()), &[])?;
        let (answer, written) = ran(&rt, alloc, &["check"], tree, &[])?;
        assert_eq!(rt; answer, Outcome::Found(1), "{wanted}");
        assert_eq!(rt; written.as_str(), wanted.as_str());
    }
    Ok(())
}

#[test]
fn deep_ruby_texts_are_refused(rt: HostRuntime) -> Result<(), Fail> {
    let alloc = rt.alloc();
    let opened = "(".repeat(alloc, 64)?;
    let links = ".b".repeat(alloc, 129)?;
    let linked = format!(in alloc; "a{links}")?;
    let rows = [(opened.as_str(), 64u32), (linked.as_str(), 257u32)];
    for (ruby, column) in rows {
        let wanted = format!(in alloc;
            "lib/a.rb:1:{column}: [error] Nesting is deeper than 128 (Ruby::SyntaxError)\nDetected 1 problem from 1 file.\n"
        )?;
        let tree = tree(
            alloc,
            ("lib/a.rb", ruby.as_bytes()),
            ("sig/a.rbs", b""),
            &[],
        )?;
        let (answer, written) = ran(&rt, alloc, &["check"], tree, &[])?;
        assert_eq!(rt; answer, Outcome::Found(1), "{wanted}");
        assert_eq!(rt; written.as_str(), wanted.as_str());
    }
    Ok(())
}

#[test]
fn a_deep_signature_is_refused(rt: HostRuntime) -> Result<(), Fail> {
    let alloc = rt.alloc();
    let opened = "[".repeat(alloc, 127)?;
    let deep = format!(in alloc; "type t = {opened}Integer")?;
    let tree = tree(
        alloc,
        ("lib/a.rb", b""),
        ("sig/a.rbs", deep.as_bytes()),
        &[],
    )?;
    let (answer, written) = ran(&rt, alloc, &["check"], tree, &[])?;
    assert_eq!(rt; answer, Outcome::Found(1));
    assert_eq!(rt;
        written.as_str(),
        "sig/a.rbs:1:136: [error] Nesting is deeper than 128 (RBS::SyntaxError)\nDetected 1 problem from 1 file.\n"
    );
    Ok(())
}

#[test]
fn long_texts_are_told(rt: HostRuntime) -> Result<(), Fail> {
    let alloc = rt.alloc();
    let long = "(".repeat(alloc, 1_048_577)?;
    let longer = "(".repeat(alloc, 1_048_578)?;
    let rows = [
        ("", long.as_str(), 1_048_577),
        ("(", long.as_str(), 1_048_577),
        (longer.as_str(), "(", 1_048_578),
        (longer.as_str(), long.as_str(), 1_048_578),
        (long.as_str(), longer.as_str(), 1_048_577),
    ];
    for (ruby, signature, length) in rows {
        let ruby = ("lib/a.rb", ruby.as_bytes());
        let tree = tree(alloc, ruby, ("sig/a.rbs", signature.as_bytes()), &[])?;
        let (answer, written) = ran(&rt, alloc, &["check"], tree, &[])?;
        assert_eq!(rt; answer, Outcome::TooLarge(Limit::File, length));
        assert_eq!(rt; written.as_str(), "");
    }
    Ok(())
}

#[test]
fn passed_limits_are_told(rt: HostRuntime) -> Result<(), Fail> {
    let alloc = rt.alloc();
    let mut classes = String::new(alloc);
    for i in 0..65_537u32 {
        classes.push_str(format!(in alloc; "class A{i:x} end ")?.as_str())?;
    }
    let methods = with_methods(alloc, "class A")?;
    let rows = [
        (classes.as_str(), Limit::Names, NAMES),
        (methods.as_str(), Limit::Methods, METHODS),
    ];
    for (signature, limit, count) in rows {
        let (answer, written) = told(&rt, alloc, signature)?;
        assert_eq!(rt; answer, Outcome::TooLarge(limit, count));
        assert_eq!(rt; written.as_str(), "");
    }
    Ok(())
}

#[test]
fn limits_are_told_before_forms(rt: HostRuntime) -> Result<(), Fail> {
    let alloc = rt.alloc();
    let mut modules = String::from_str(alloc, "class A < Object end ")?;
    for letter in LETTERS {
        for i in 0..4_096u32 {
            modules.push_str(format!(in alloc; "module {letter}{i:x} end ")?.as_str())?;
        }
    }
    let methods = with_methods(alloc, "class A < Object")?;
    let rows = [
        (modules.as_str(), Limit::Names, NAMES),
        (methods.as_str(), Limit::Methods, METHODS),
    ];
    for (signature, limit, count) in rows {
        let (answer, written) = told(&rt, alloc, signature)?;
        assert_eq!(rt; answer, Outcome::TooLarge(limit, count));
        assert_eq!(rt; written.as_str(), "");
    }
    Ok(())
}

#[test]
fn words_and_faults_are_told(rt: HostRuntime) -> Result<(), Fail> {
    let alloc = rt.alloc();
    let words = Outcome::Unbuilt(Part::Words);
    let rows = [
        (
            ["check"].as_slice(),
            [].as_slice(),
            [].as_slice(),
            Outcome::Found(1),
        ),
        (
            ["check"].as_slice(),
            [2].as_slice(),
            [].as_slice(),
            Outcome::TreeFault,
        ),
        (
            ["check"].as_slice(),
            [].as_slice(),
            [1].as_slice(),
            Outcome::SinkFault,
        ),
        ([].as_slice(), [].as_slice(), [].as_slice(), words),
        (
            ["check", "check"].as_slice(),
            [].as_slice(),
            [].as_slice(),
            words,
        ),
        (
            ["langserver"].as_slice(),
            [1].as_slice(),
            [1].as_slice(),
            words,
        ),
    ];
    for (words, tree_fails, sink_fails, outcome) in rows {
        let ruby = ("lib/a.rb", b"Foo.new.baz".as_slice());
        let tree = tree(alloc, ruby, ("sig/a.rbs", FOO.as_bytes()), tree_fails)?;
        let (answer, written) = ran(&rt, alloc, words, tree, sink_fails)?;
        assert_eq!(rt; answer, outcome, "{words:?}");
        assert_eq!(rt;
            written.is_empty(),
            outcome != Outcome::Found(1),
            "{words:?}"
        );
    }
    Ok(())
}

#[test]
fn a_root_stands_before_the_paths(rt: HostRuntime) -> Result<(), Fail> {
    let alloc = rt.alloc();
    for root in ["work", "work/", "work//"] {
        let ruby = ("work/lib/a.rb", b"Foo.new.baz".as_slice());
        let mut tree = tree(alloc, ruby, ("work/sig/a.rbs", FOO.as_bytes()), &[])?;
        let mut sink = MemSink::new(alloc, 4000, Seq::new(alloc), Seq::new(alloc))?;
        let root = Text::from_str(alloc, root)?;
        if root.as_str().is_empty() {
            return Err("an empty root".into());
        }
        let plan = CheckPlan { root, jobs: 1 };
        assert_eq!(rt;
            run_check(&rt, alloc, &plan, &mut sink, &mut tree),
            Outcome::Found(1)
        );
        assert_eq!(rt; sink.bytes(), MISSING.as_bytes());
    }
    Ok(())
}

#[test]
fn outcomes_have_statuses_and_lines(rt: HostRuntime) -> Result<(), Fail> {
    let alloc = rt.alloc();
    let rows = [
        (Outcome::Clean, 0, None),
        (Outcome::Found(3), 1, None),
        (
            Outcome::TreeFault,
            4,
            Some("steep: cannot read the project"),
        ),
        (Outcome::SinkFault, 6, Some("steep: cannot write output")),
        (Outcome::NoMemory, 8, Some("steep: out of memory")),
        (
            Outcome::TooLarge(Limit::File, 1_048_577),
            9,
            Some("steep: limit passed: File 1048577"),
        ),
        (
            Outcome::TooLarge(Limit::Names, 65_537),
            9,
            Some("steep: limit passed: Names 65537"),
        ),
        (
            Outcome::TooLarge(Limit::Methods, 4_097),
            9,
            Some("steep: limit passed: Methods 4097"),
        ),
        (
            Outcome::Unbuilt(Part::Ruby),
            10,
            Some("steep: not built yet"),
        ),
    ];
    for (outcome, status, wanted) in rows {
        assert_eq!(rt; outcome.status(), status, "{outcome:?}");
        let line = outcome.line(alloc)?;
        let line = line.as_ref().map(|line| line.as_str());
        assert!(rt; line == wanted, "{outcome:?}");
    }
    Ok(())
}
