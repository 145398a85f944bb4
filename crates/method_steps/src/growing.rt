ghost use Rattle.std.specs.Prelude.{◌≡◌, ◌++◌, ℕ, List, Option, Some, reverse, IfOk};
ghost use Rattle.sig_rules.specs.declared.method.Method.{Method};
ghost use Rattle.sig_rules.specs.Methods.{once_more};

use rbs_tree::{MethodType, TypeName, copy_name};
use sig_rules::{GivenMethod, Kind, Method, Step, Visibility, What};
use src_text::{Mem, Seq};
use std::alloc::Global;
use std::marker::Model;

/// A method that may still get overloads before those that it has.
#[derive(Drop)]
pub(crate) struct Growing {
    // the overloads, the last first
    reversed: Vec<MethodType>,
    visible: Visibility,
    owner: TypeName,
    kind: Kind,
}

impl Model for Growing {
    ghost use Rattle.std.specs.Prelude.{reverse};
    ghost use Rattle.sig_rules.specs.declared.method.Method.{Method};
    ghost use Rattle.sig_rules.specs.contracts.method.Method as of_method;

    ghost Value = { Method };

    ghost coded = { of_method.the_row.coded };

    ghost view = { λ it. record { overloads = reverse it.reversed.items; visible = it.visible; owner = it.owner; kind = it.kind } };
}

impl Growing {
    // The method that a declaration on a step gives with these overloads, the last first.
    fn given(
        alloc: Global,
        step: &Step,
        visible: Visibility,
        reversed: Vec<MethodType>,
    ) -> Mem<Growing>
        ensures { IfOk result (λ given. given ≡ record { overloads = reverse reversed.items; visible = visible; owner = step.now.name; kind = step.now.kind }) }
    {
        Ok(Growing {
            reversed,
            visible,
            owner: copy_name(alloc, &step.name)?,
            kind: step.kind,
        })
    }

    /// The method that a declaration on a step gives with all its overloads.
    pub(crate) fn whole(
        alloc: Global,
        step: &Step,
        visible: Visibility,
        overloads: Seq<MethodType>,
    ) -> Mem<Growing>
        ensures { IfOk result (λ whole. whole ≡ record { overloads = overloads; visible = visible; owner = step.now.name; kind = step.now.kind }) }
    {
        Growing::given(alloc, step, visible, reversed(overloads))
    }

    /// The method that a declaration on a step gives with overloads before others.
    pub(crate) fn further(
        alloc: Global,
        step: &Step,
        visible: Visibility,
        overloads: Seq<MethodType>,
        others: Seq<MethodType>,
    ) -> Mem<Growing>
        ensures { IfOk result (λ further. further ≡ record { overloads = overloads ++ others; visible = visible; owner = step.now.name; kind = step.now.kind }) }
    {
        let reversed = with_front(overloads, reversed(others))?;
        Growing::given(alloc, step, visible, reversed)
    }

    /// With one more declaration of its name.
    pub(crate) fn with(self, alloc: Global, step: &Step, given: GivenMethod) -> Mem<Growing>
        ensures { (from_behind : Option Method) (old : List ℕ → Option Method) → IfOk result (λ grown. once_more step.now from_behind old (Some self) given ≡ Some grown) }
    {
        let GivenMethod {
            name: _,
            visible,
            what,
        } = given;
        match what {
            What::Further(overloads) => {
                let reversed = with_front(overloads, self.reversed)?;
                Growing::given(alloc, step, visible, reversed)
            }
            _ => Ok(self),
        }
    }

    /// A method as it stands.
    pub(crate) fn of(method: Method) -> Growing
        ensures { result ≡ method }
    {
        let Method {
            overloads,
            visible,
            owner,
            kind,
        } = method;
        Growing {
            reversed: reversed(overloads),
            visible,
            owner,
            kind,
        }
    }

    /// The method.
    pub(crate) fn into_method(self) -> Method
        ensures { result ≡ self }
    {
        let Growing {
            reversed,
            visible,
            owner,
            kind,
        } = self;
        Method {
            overloads: in_order(reversed),
            visible,
            owner,
            kind,
        }
    }
}

// The overloads, the last first.
fn reversed(overloads: Seq<MethodType>) -> Vec<MethodType>
    ensures { result.items ≡ reverse overloads }
{
    let mut reversed = overloads.into_vec();
    reversed.as_mut_slice().reverse();
    reversed
}

// These overloads before others of which the last is first, all of them the last first.
fn with_front(overloads: Seq<MethodType>, reversed: Vec<MethodType>) -> Mem<Vec<MethodType>>
    ensures { IfOk result (λ all. reverse all.items ≡ overloads ++ reverse reversed.items) }
{
    let mut all = reversed;
    let mut front = overloads.into_vec();
    front.as_mut_slice().reverse();
    all.append(&mut front)?;
    Ok(all)
}

// The overloads in their order, by those the last first.
fn in_order(reversed: Vec<MethodType>) -> Seq<MethodType>
    ensures { result ≡ reverse reversed.items }
{
    let mut overloads = reversed;
    overloads.as_mut_slice().reverse();
    Seq::from_vec(overloads)
}
