use crate::table::{standing, too_many};
use crate::texts::{MERGED, VALUES};
use std::test::Fail;

// Signatures, a word, and what stands behind it.
const STANDING: &[(&str, &str, &str)] = &[
    // type aliases behind their type parameters
    (MERGED, "t", "T T = T"),
    (VALUES, "a", "= ::G[::Integer]"),
    // constants by their full names, and globals
    (VALUES, "::K", "::Integer"),
    (VALUES, "K", "nothing"),
    (VALUES, "::G", "nothing"),
    ("$g1: 1\n", "$g1", "1"),
];

#[test]
fn aliases_and_values(rt: HostRuntime) -> Result<(), Fail> {
    let alloc = rt.alloc();
    for row in STANDING {
        assert_eq!(rt; standing(alloc, row.0, row.1)?.as_str(), row.2);
    }
    Ok(())
}

// The head of a declaration, how its methods begin, how many it has, and how many its definition has where they are too many.
const COUNTED: &[(&str, &str, u64, Option<u64>)] = &[
    ("interface _I\n", "def m", 4096, None),
    ("interface _I\n", "def m", 4097, Some(4097)),
    // beside the 31 that all instances have
    ("class A\n", "def m", 4065, None),
    ("class A\n", "def m", 4066, Some(4097)),
    // beside the 40 that all classes have, and `new`
    ("class A\n", "def self.m", 4055, None),
    ("class A\n", "def self.m", 4056, Some(4097)),
];

#[test]
fn methods_are_counted(rt: HostRuntime) -> Result<(), Fail> {
    let alloc = rt.alloc();
    for row in COUNTED {
        assert_eq!(rt; too_many(alloc, row.0, row.1, row.2)?, row.3);
    }
    Ok(())
}
