ghost use Rattle.std.specs.Prelude.{◌≡◌, ℕ, ◌<◌, ◌∷◌, ◌++◌, length, map, slice_index_or, None, IfOk};
ghost use Rattle.method_steps.specs.Slots.{first_of, lead, lead_at, leads_among, with_first};

use crate::slots::{Origin, Slot};
use src_text::Mem;
use std::alloc::Global;

/// What a method that is given leads to.
#[derive(Clone, Copy)]
pub(crate) enum Lead {
    /// It lives no more.
    Gone,
    /// It is no alias, or it leads elsewhere.
    End,
    /// It is an alias of nothing.
    Nowhere,
    /// It is an alias of what is given at this place.
    Here(usize),
}

/// What each of them leads to among those that live.
pub(crate) fn leads_of(alloc: Global, slots: &[Slot]) -> Mem<Vec<Lead>>
    ensures { IfOk result (λ leads. leads.items ≡ leads_among slots.now) }
{
    let firsts = firsts_of(alloc, slots)?;
    let mut leads = Vec::new(alloc);
    let mut rest = slots;
    while let [slot, more @ ..] = rest {
        leads.push(lead_of(firsts.as_slice(), slot))?;
        rest = more;
    }
    Ok(leads)
}

// By each key the place of the first that lives of those with this key.
fn firsts_of(alloc: Global, slots: &[Slot]) -> Mem<Vec<Option<usize>>>
    ensures { IfOk result (λ firsts. (key : ℕ) → slice_index_or firsts.items key None ≡ first_of slots.now key) }
{
    let mut firsts = Vec::new(alloc);
    firsts.resize(slots.len(), None)?;
    for (place, slot) in slots.iter().enumerate() {
        note_first(&mut firsts, place, slot);
    }
    Ok(firsts)
}

// Puts the place of a method that lives where its key has none yet.
fn note_first(firsts: &mut Vec<Option<usize>>, place: usize, slot: &Slot)
    ensures { firsts.new.items ≡ with_first firsts.old.items place slot.now }
{
    if slot.lives && slot.key < firsts.len() && firsts[slot.key].is_none() {
        firsts[slot.key] = Some(place);
    }
}

// What a method leads to by the firsts of keys.
fn lead_of(firsts: &[Option<usize>], slot: &Slot) -> Lead
    ensures { result ≡ lead (λ key. slice_index_or firsts.now key None) slot.now }
{
    if !slot.lives {
        return Lead::Gone;
    }
    match slot.origin {
        Origin::Own => Lead::End,
        Origin::Alias(key, is_elsewhere) => match first_at(firsts, key) {
            Some(place) => Lead::Here(place),
            None => if is_elsewhere {
                Lead::End
            } else {
                Lead::Nowhere
            },
        },
    }
}

// The first of a key, or none for a key past the end.
fn first_at(firsts: &[Option<usize>], key: usize) -> Option<usize>
    ensures { result ≡ slice_index_or firsts.now key None }
{
    if key < firsts.len() {
        firsts[key]
    } else {
        None
    }
}

/// What the method at a place leads to.
pub(crate) fn lead_at(leads: &[Lead], place: usize) -> Lead
    ensures { result ≡ lead_at leads.now place }
{
    if place < leads.len() {
        leads[place]
    } else {
        Lead::Gone
    }
}
