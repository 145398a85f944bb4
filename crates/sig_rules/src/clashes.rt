ghost use Rattle.std.specs.Prelude.{◌≡◌, ◌&&◌, ◌==◌, Bool, true, false};
ghost use Rattle.sig_rules.specs.Declarations.{goes_with, same_bool, same_marks, sign_number};
ghost use Rattle.sig_rules.specs.Sorted.{counts_beside, goes_with_class, goes_with_module};

use crate::Declared;
use rbs_tree::{Decl, TypeParam};

/// Whether a declaration counts behind those of its name that do.
pub(crate) fn counts_beside(group: &[Declared], other: &Declared) -> bool
    ensures { result ≡ counts_beside group.now other.now }
{
    match group {
        [] => true,
        [first, ..] => goes_with(&first.decl, &other.decl),
    }
}

// Whether a declaration of the same name counts beside the first.
fn goes_with(first: &Decl, other: &Decl) -> bool
    ensures { result ≡ goes_with first.now other.now }
{
    match first {
        Decl::Class { params, .. } => goes_with_class(params.as_slice(), other),
        Decl::Module { params, .. } => goes_with_module(params.as_slice(), other),
        _ => false,
    }
}

// Whether a declaration is of a class with these type parameters.
fn goes_with_class(params: &[TypeParam], other: &Decl) -> bool
    ensures { result ≡ goes_with_class params.now other.now }
{
    match other {
        Decl::Class { params: others, .. } => same_marks(params, others.as_slice()),
        _ => false,
    }
}

// Whether a declaration is of a module with these type parameters.
fn goes_with_module(params: &[TypeParam], other: &Decl) -> bool
    ensures { result ≡ goes_with_module params.now other.now }
{
    match other {
        Decl::Module { params: others, .. } => same_marks(params, others.as_slice()),
        _ => false,
    }
}

// Whether type parameters have the same marks in the same order.
fn same_marks(params: &[TypeParam], others: &[TypeParam]) -> bool
    ensures { result ≡ same_marks params.now others.now }
{
    let mut left = params;
    let mut right = others;
    while let [first, rest @ ..] = left {
        match right {
            [] => return false,
            [other, more @ ..] => {
                if !same_mark(first, other) {
                    return false;
                }
                right = more;
            }
        }
        left = rest;
    }
    right.is_empty()
}

fn same_mark(first: &TypeParam, other: &TypeParam) -> bool
    ensures { result ≡ (same_bool first.now.unchecked other.now.unchecked && sign_number first.now.sign == sign_number other.now.sign) }
{
    first.unchecked == other.unchecked && first.sign == other.sign
}
