ghost use Rattle.std.specs.Prelude.{◌≡◌, ℕ, List, ◌∷◌, ◌++◌, [], length, map, unwrap_or, IfOk, OnOk};
ghost use Rattle.sig_rules.specs.Worlds.{by_name};
ghost use Rattle.method_steps.specs.Slots.{key, origin, slot, with_key};

use crate::living::Elsewhere;
use indexmap::IndexMap;
use sig_rules::{GivenMethod, What};
use src_text::{Mem, Text};
use std::alloc::Global;
use std::marker::Model;

/// Where a method that is given comes from.
#[derive(Clone, Copy)]
pub(crate) enum Origin {
    /// It is no alias.
    Own,
    /// It is an alias of the name with this key, of which there is a method elsewhere or not.
    Alias(usize, bool),
}

/// A method that is given, by the keys of names.
#[derive(Clone, Copy)]
pub(crate) struct Slot {
    pub(crate) key: usize,
    pub(crate) origin: Origin,
    pub(crate) lives: bool,
}

// The place of the first method of each name.
#[derive(Drop)]
struct Keys {
    by_name: IndexMap<Text, usize>,
}

impl Model for Keys {
    ghost use Rattle.std.specs.Prelude.{List, ℕ};
    ghost use Rattle.std.specs.Coded.{coded_list, coded×, coded_ℕ};

    ghost Value = { List (List ℕ × ℕ) };

    ghost coded = { coded_list (coded× (coded_list coded_ℕ) coded_ℕ) };

    ghost view = { λ keys. keys.by_name.entries };
}

impl Keys {
    // The place of the first method of a name, or a number for names without one.
    fn key(&self, name: &Text, unknown: usize) -> usize
        ensures { result ≡ unwrap_or (by_name self.now name.now) unknown }
    {
        match self.by_name.get(name) {
            Some(place) => *place,
            None => unknown,
        }
    }

    // Notes a place for a name that has none yet.
    fn note(&mut self, name: &Text, place: usize) -> Mem<()>
        ensures { OnOk result (self.new ≡ with_key self.old name.now place) }
    {
        if self.by_name.get(name).is_none() {
            let name = name.clone()?;
            self.by_name.insert(name, place)?;
        }
        Ok(())
    }
}

/// The methods that are given, which all live yet, by the keys of names.
pub(crate) fn slots_of<E: Elsewhere>(
    alloc: Global,
    elsewhere: &E,
    given: &[GivenMethod],
) -> Mem<Vec<Slot>>
    ensures { IfOk result (λ slots. slots.items ≡ map (slot (key given.now) (E.knows elsewhere.now)) given.now) }
{
    let keys = keys_of(alloc, given)?;
    let mut slots = Vec::new(alloc);
    let mut rest = given;
    while let [method, more @ ..] = rest {
        slots.push(slot_of(elsewhere, &keys, given.len(), method))?;
        rest = more;
    }
    Ok(slots)
}

fn keys_of(alloc: Global, given: &[GivenMethod]) -> Mem<Keys>
    ensures { IfOk result (λ keys. (name : List ℕ) → unwrap_or (by_name keys name) (length given.now) ≡ key given.now name) }
{
    let mut keys = Keys {
        by_name: IndexMap::new(alloc),
    };
    for (place, method) in given.iter().enumerate() {
        keys.note(&method.name, place)?;
    }
    Ok(keys)
}

fn slot_of<E: Elsewhere>(elsewhere: &E, keys: &Keys, unknown: usize, method: &GivenMethod) -> Slot
    ensures { result ≡ slot (λ name. unwrap_or (by_name keys.now name) unknown) (E.knows elsewhere.now) method.now }
{
    Slot {
        key: keys.key(&method.name, unknown),
        origin: origin_of(elsewhere, keys, unknown, &method.what),
        lives: true,
    }
}

fn origin_of<E: Elsewhere>(elsewhere: &E, keys: &Keys, unknown: usize, what: &What) -> Origin
    ensures { result ≡ origin (λ name. unwrap_or (by_name keys.now name) unknown) (E.knows elsewhere.now) what.now }
{
    match what {
        What::AliasOf(old) => Origin::Alias(keys.key(old, unknown), elsewhere.has(old)),
        _ => Origin::Own,
    }
}
