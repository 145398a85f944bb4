ghost use Rattle.std.specs.Prelude.{◌≡◌, ◌≤◌, ◌+◌, ◌||◌, ◌∷◌, ◌++◌, ℕ, [], false, suc, length, slice_index_or, MatchOption, IfOk};
ghost use Rattle.method_steps.specs.Slots.{is_dead_at, is_nowhere, lead_at, round, rounds, some_dead, without};

use crate::circles::circles_of;
use crate::leads::{Lead, lead_at, leads_of};
use crate::slots::Slot;
use src_text::Mem;
use std::alloc::Global;

/// Those that live when the dead ones are taken away so many times.
pub(crate) fn living_after(alloc: Global, turns: usize, slots: Vec<Slot>) -> Mem<Vec<Slot>>
    ensures { IfOk result (λ living. living.items ≡ rounds turns slots.items) }
{
    let mut living = slots;
    let mut left = turns;
    while left > 0 {
        match next_round(alloc, living.as_slice())? {
            Some(next) => living = next,
            None => return Ok(living),
        }
        left -= 1;
    }
    Ok(living)
}

// Without those that are dead, or none where no one is.
fn next_round(alloc: Global, slots: &[Slot]) -> Mem<Option<Vec<Slot>>>
    ensures { IfOk result (λ next. MatchOption next (round slots.now ≡ slots.now) (λ living. living.items ≡ round slots.now)) }
{
    let leads = leads_of(alloc, slots)?;
    let circles = circles_of(alloc, leads.as_slice())?;
    if !has_dead(slots, leads.as_slice(), circles.as_slice()) {
        return Ok(None);
    }
    Ok(Some(without_dead(alloc, slots, leads.as_slice(), circles.as_slice())?))
}

// Whether one that lives is dead.
fn has_dead(slots: &[Slot], leads: &[Lead], circles: &[bool]) -> bool
    ensures { result ≡ some_dead (is_dead_at (λ place. slice_index_or circles.now place false) leads.now) 0 slots.now }
{
    let mut place = 0;
    let mut rest = slots;
    while let [slot, more @ ..] = rest {
        if slot.lives && is_dead(leads, circles, place) {
            return true;
        }
        place += 1;
        rest = more;
    }
    false
}

fn without_dead(alloc: Global, slots: &[Slot], leads: &[Lead], circles: &[bool]) -> Mem<Vec<Slot>>
    ensures { IfOk result (λ living. living.items ≡ without (is_dead_at (λ place. slice_index_or circles.now place false) leads.now) 0 slots.now) }
{
    let mut living = Vec::new(alloc);
    let mut place = 0;
    let mut rest = slots;
    while let [slot, more @ ..] = rest {
        let lives = slot.lives && !is_dead(leads, circles, place);
        living.push(Slot { lives, ..*slot })?;
        place += 1;
        rest = more;
    }
    Ok(living)
}

fn is_dead(leads: &[Lead], circles: &[bool], place: usize) -> bool
    ensures { result ≡ is_dead_at (λ at. slice_index_or circles.now at false) leads.now place }
{
    match lead_at(leads, place) {
        Lead::Nowhere => true,
        _ => is_marked(circles, place),
    }
}

fn is_marked(circles: &[bool], place: usize) -> bool
    ensures { result ≡ slice_index_or circles.now place false }
{
    if place < circles.len() {
        circles[place]
    } else {
        false
    }
}
