use crate::shown::{all, counting, resolution};
use std::test::Fail;

// Signatures, enclosing names with a name behind them, and what that name stands for with the names that are asked.
const RESOLUTIONS: &[(&str, &str, &str)] = &[
    // in the innermost name
    (
        "class A class B end end class B end",
        "[A, B]",
        "A::B of A::B",
    ),
    // found outwards
    (
        "class A class C end end class A::C::D end class B end",
        "[A, A::C, B]",
        "B of A::C::B A::B B",
    ),
    // absolute
    ("class A class B end end class B end", "[A, ::B]", "B of B"),
    ("class A class B end end", "[A, ::B]", "none of B"),
    // the head is found, but the rest isn't
    (
        "class A class B end end class B class C end end",
        "[A, B::C]",
        "none of A::B A::B::C",
    ),
    // a head with further words has to be a class or a module
    (
        "class A B: Integer end module B class C end end",
        "[A, B::C]",
        "B::C of A::B B B::C",
    ),
    ("class A B: Integer end", "[A, B]", "A::B of A::B"),
    // of no declaration
    ("class A end", "[A, D]", "none of A::D D"),
    ("", "[D]", "none of D"),
    // interfaces and type aliases
    (
        "module A interface _I end type t = Integer end",
        "[A, _I]",
        "A::_I of A::_I",
    ),
    (
        "module A interface _I end type t = Integer end",
        "[A, t]",
        "A::t of A::t",
    ),
];

#[test]
fn names_stand_for(rt: HostRuntime) -> Result<(), Fail> {
    let alloc = rt.alloc();
    for row in RESOLUTIONS {
        assert_eq!(rt; resolution(alloc, row.0, row.1)?.as_str(), row.2);
    }
    Ok(())
}

// Signatures, names, and the declarations of each that count.
const COUNTING: &[(&str, &str, &str)] = &[
    // merged classes
    (
        "class A def m: () -> A end module B end class A def n: () -> A def o: () -> A end",
        "[A, B]",
        "A: class(A.) class(A..);B: module(B);",
    ),
    // clashes
    (
        "class A end module A end class A end",
        "[A]",
        "A: class(A) class(A);",
    ),
    (
        "class A[T] end class A[out T] end class A[S] end class A end",
        "[A]",
        "A: class(A) class(A);",
    ),
    ("A: Integer class A end", "[A]", "A: constant(A);"),
    (
        "interface _I end interface _I end",
        "[_I]",
        "_I: interface(_I);",
    ),
    // nested names, which are no members
    (
        "class A class B end def m: () -> A module B::C end end",
        "[A, A::B, A::B::C, B]",
        "A: class(A.);A::B: A>class(B);A::B::C: A>module(B::C);B:;",
    ),
    (
        "class A class ::B end end",
        "[B, A::B]",
        "B: A>class(B);A::B:;",
    ),
];

#[test]
fn declarations_that_count(rt: HostRuntime) -> Result<(), Fail> {
    let alloc = rt.alloc();
    for row in COUNTING {
        assert_eq!(rt; counting(alloc, row.0, row.1)?.as_str(), row.2);
    }
    Ok(())
}

#[test]
fn all_declarations_in_order(rt: HostRuntime) -> Result<(), Fail> {
    let text =
        "module B class A module C end end $g: Integer end class A end type t = B module B end";
    let found = all(rt.alloc(), text, 8)?;
    assert_eq!(rt;
        found.as_str(),
        " module(B) B>class(A) B>B::A>module(C) B>$g class(A) type(t) module(B) none"
    );
    Ok(())
}
