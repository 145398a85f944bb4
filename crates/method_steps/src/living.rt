ghost use Rattle.std.specs.Prelude.{◌≡◌, ℕ, ◌∷◌, ◌++◌, [], Bool, List, IfOk};
ghost use Rattle.sig_rules.specs.Methods.{living};
ghost use Rattle.method_steps.specs.Slots.{all_live, chosen, has_alias, is_alias};

use crate::rounds::living_after;
use crate::slots::{Slot, slots_of};
use sig_rules::{GivenMethod, What};
use src_text::{Mem, Seq, Text};
use std::alloc::Global;

/// What is known of names elsewhere than among some declarations.
pub(crate) trait Elsewhere {
    /// Whether there is a method of this name.
    ghost knows: { Self → List ℕ → Bool };

    /// Whether there is a method of this name.
    fn has(&self, name: &Text) -> bool
        ensures { result ≡ knows self.now name.now };
}

/// The methods that live: without the aliases that lead nowhere, be it on a circle or through other such aliases.
pub(crate) fn living<E: Elsewhere>(
    alloc: Global,
    elsewhere: &E,
    given: Seq<GivenMethod>,
) -> Mem<Seq<GivenMethod>>
    ensures { IfOk result (λ alive. alive ≡ living (E.knows elsewhere.now) given) }
{
    if !has_alias(given.as_slice()) {
        return Ok(given);
    }
    let slots = slots_of(alloc, elsewhere, given.as_slice())?;
    let slots = living_after(alloc, given.len(), slots)?;
    if all_live(slots.as_slice()) {
        return Ok(given);
    }
    chosen_of(alloc, given, slots.as_slice())
}

fn has_alias(given: &[GivenMethod]) -> bool
    ensures { result ≡ has_alias given.now }
{
    let mut rest = given;
    while let [method, more @ ..] = rest {
        if is_alias(&method.what) {
            return true;
        }
        rest = more;
    }
    false
}

fn is_alias(what: &What) -> bool
    ensures { result ≡ is_alias what.now }
{
    match what {
        What::AliasOf(_) => true,
        _ => false,
    }
}

fn all_live(slots: &[Slot]) -> bool
    ensures { result ≡ all_live slots.now }
{
    let mut rest = slots;
    while let [slot, more @ ..] = rest {
        if !slot.lives {
            return false;
        }
        rest = more;
    }
    true
}

// The methods whose slots live.
fn chosen_of(alloc: Global, given: Seq<GivenMethod>, slots: &[Slot]) -> Mem<Seq<GivenMethod>>
    ensures { IfOk result (λ living. living ≡ chosen given slots.now) }
{
    let mut living = Seq::new(alloc);
    let mut rest = slots;
    for method in given.into_vec() {
        match rest {
            [slot, more @ ..] => {
                if slot.lives {
                    living.push(method)?;
                }
                rest = more;
            }
            [] => return Ok(living),
        }
    }
    Ok(living)
}
