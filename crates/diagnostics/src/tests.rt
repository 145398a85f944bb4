use super::*;
use src_text::{Mem, Seq, Span, Text, line_index};
use std::alloc::Global;
use std::test::Fail;

const NAMES: [(Code, &str); 40] = [
    (Code::RbsSyntaxError, "RBS::SyntaxError"),
    (Code::UnknownTypeName, "RBS::UnknownTypeName"),
    (Code::InvalidTypeApplication, "RBS::InvalidTypeApplication"),
    (Code::DuplicatedDeclaration, "RBS::DuplicatedDeclaration"),
    (
        Code::DuplicatedMethodDefinition,
        "RBS::DuplicatedMethodDefinition",
    ),
    (Code::RecursiveAncestor, "RBS::RecursiveAncestor"),
    (Code::RecursiveTypeAlias, "RBS::RecursiveTypeAlias"),
    (Code::SuperclassMismatch, "RBS::SuperclassMismatch"),
    (
        Code::InvalidVarianceAnnotation,
        "RBS::InvalidVarianceAnnotation",
    ),
    (Code::UnknownMethodAlias, "RBS::UnknownMethodAlias"),
    (Code::InvalidMethodOverload, "RBS::InvalidMethodOverload"),
    (
        Code::UnsatisfiableTypeApplication,
        "RBS::UnsatisfiableTypeApplication",
    ),
    (Code::CyclicClassAlias, "RBS::CyclicClassAlias"),
    (Code::WrongAliasKind, "RBS::WrongAliasKind"),
    (Code::RubySyntaxError, "Ruby::SyntaxError"),
    (Code::UnsupportedSyntax, "Ruby::UnsupportedSyntax"),
    (Code::NoMethod, "Ruby::NoMethod"),
    (Code::ArgumentTypeMismatch, "Ruby::ArgumentTypeMismatch"),
    (Code::UnresolvedOverloading, "Ruby::UnresolvedOverloading"),
    (
        Code::InsufficientPositionalArguments,
        "Ruby::InsufficientPositionalArguments",
    ),
    (
        Code::UnexpectedPositionalArgument,
        "Ruby::UnexpectedPositionalArgument",
    ),
    (
        Code::InsufficientKeywordArguments,
        "Ruby::InsufficientKeywordArguments",
    ),
    (
        Code::UnexpectedKeywordArgument,
        "Ruby::UnexpectedKeywordArgument",
    ),
    (Code::RequiredBlockMissing, "Ruby::RequiredBlockMissing"),
    (Code::UnexpectedBlockGiven, "Ruby::UnexpectedBlockGiven"),
    (Code::BlockBodyTypeMismatch, "Ruby::BlockBodyTypeMismatch"),
    (Code::MethodBodyTypeMismatch, "Ruby::MethodBodyTypeMismatch"),
    (
        Code::MethodParameterMismatch,
        "Ruby::MethodParameterMismatch",
    ),
    (Code::ReturnTypeMismatch, "Ruby::ReturnTypeMismatch"),
    (Code::IncompatibleAssignment, "Ruby::IncompatibleAssignment"),
    (Code::UnknownConstant, "Ruby::UnknownConstant"),
    (
        Code::UnknownInstanceVariable,
        "Ruby::UnknownInstanceVariable",
    ),
    (Code::UnknownGlobalVariable, "Ruby::UnknownGlobalVariable"),
    (
        Code::UndeclaredMethodDefinition,
        "Ruby::UndeclaredMethodDefinition",
    ),
    (
        Code::MethodDefinitionMissing,
        "Ruby::MethodDefinitionMissing",
    ),
    (Code::UnexpectedSuper, "Ruby::UnexpectedSuper"),
    (Code::UnexpectedYield, "Ruby::UnexpectedYield"),
    (Code::AnnotationSyntaxError, "Ruby::AnnotationSyntaxError"),
    (Code::FalseAssertion, "Ruby::FalseAssertion"),
    (Code::MisplacedAnnotation, "Ruby::MisplacedAnnotation"),
];

#[test]
fn names_of_codes(rt: HostRuntime) {
    for (code, name) in &NAMES {
        assert_eq!(rt; code.name(), *name);
    }
}

// The start, the end, the code, the message and the severity.
type Row = (u32, u32, Code, &'static str, u8);

fn diagnostic(alloc: Global, row: Row) -> Mem<Diagnostic> {
    let (start, end, code, message, severity) = row;
    Ok(Diagnostic {
        span: Span { start, end },
        code,
        message: Text::from_str(alloc, message)?,
        severity,
    })
}

fn diagnostics(alloc: Global, rows: &[Row]) -> Mem<Seq<Diagnostic>> {
    let mut list = Seq::new(alloc);
    for row in rows {
        list.push(diagnostic(alloc, *row)?)?;
    }
    Ok(list)
}

#[test]
fn order_of_ties(rt: HostRuntime) -> Result<(), Fail> {
    let alloc = rt.alloc();
    let given = diagnostics(
        alloc,
        &[
            (1, 3, Code::RubySyntaxError, "é", 1),
            (1, 3, Code::RubySyntaxError, "ab", 2),
            (1, 3, Code::RubySyntaxError, "ab", 1),
            (1, 3, Code::RubySyntaxError, "a", 3),
            (1, 3, Code::RubySyntaxError, "B", 3),
            (1, 3, Code::NoMethod, "z", 3),
            (1, 3, Code::WrongAliasKind, "z", 3),
            (1, 2, Code::UnexpectedYield, "z", 3),
            (0, 9, Code::UnexpectedYield, "z", 3),
            (1, 3, Code::NoMethod, "z", 3),
            (1, 3, Code::RubySyntaxError, "ab", 2),
        ],
    )?;
    let wanted = diagnostics(
        alloc,
        &[
            (0, 9, Code::UnexpectedYield, "z", 3),
            (1, 2, Code::UnexpectedYield, "z", 3),
            (1, 3, Code::WrongAliasKind, "z", 3),
            (1, 3, Code::NoMethod, "z", 3),
            (1, 3, Code::RubySyntaxError, "B", 3),
            (1, 3, Code::RubySyntaxError, "a", 3),
            (1, 3, Code::RubySyntaxError, "ab", 1),
            (1, 3, Code::RubySyntaxError, "ab", 2),
            (1, 3, Code::RubySyntaxError, "é", 1),
        ],
    )?;
    assert_eq!(rt; order(alloc, given)?, wanted);
    Ok(())
}

const TEXT: &str = "aé😀b\r\nc\rd\n";

// A byte of the text, a severity, and the line that is printed of a diagnostic that starts there.
const LINES: [(u32, u8, &str); 8] = [
    (0, 1, "lib/é.rb:1:0: [error] no `é` (Ruby::NoMethod)\n"),
    (3, 2, "lib/é.rb:1:2: [warning] no `é` (Ruby::NoMethod)\n"),
    (
        5,
        3,
        "lib/é.rb:1:2: [information] no `é` (Ruby::NoMethod)\n",
    ),
    (7, 1, "lib/é.rb:1:4: [error] no `é` (Ruby::NoMethod)\n"),
    (9, 1, "lib/é.rb:1:5: [error] no `é` (Ruby::NoMethod)\n"),
    (10, 1, "lib/é.rb:2:0: [error] no `é` (Ruby::NoMethod)\n"),
    (12, 1, "lib/é.rb:3:0: [error] no `é` (Ruby::NoMethod)\n"),
    (99, 1, "lib/é.rb:4:0: [error] no `é` (Ruby::NoMethod)\n"),
];

#[test]
fn lines_of_places(rt: HostRuntime) -> Result<(), Fail> {
    let alloc = rt.alloc();
    let index = line_index(alloc, TEXT)?;
    for (byte, severity, wanted) in &LINES {
        let found = diagnostic(alloc, (*byte, *byte, Code::NoMethod, "no `é`", *severity))?;
        let line = line_text(alloc, "lib/é.rb", TEXT, &index, &found)?;
        assert_eq!(rt; line.as_str(), *wanted, "at {byte}");
    }
    Ok(())
}

#[test]
fn summaries(rt: HostRuntime) -> Result<(), Fail> {
    for (problems, files, wanted) in [
        (0, 1, "No type error detected.\n"),
        (0, 2, "No type error detected.\n"),
        (1, 1, "Detected 1 problem from 1 file.\n"),
        (1, 2, "Detected 1 problem from 2 files.\n"),
        (2, 1, "Detected 2 problems from 1 file.\n"),
        (2, 2, "Detected 2 problems from 2 files.\n"),
    ] {
        assert_eq!(rt; summary_text(rt.alloc(), problems, files)?.as_str(), wanted);
    }
    Ok(())
}
