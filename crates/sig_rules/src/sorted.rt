ghost use Rattle.std.specs.Prelude.{◌≡◌, ◌<◌, [], ◌∷◌, ◌++◌, length, map, false, slice_get, Some, IfSome, IfNone, IfOk, OnOk};
ghost use Rattle.std.specs.Option.{option_copied, option_map};
ghost use Rattle.std.specs.List.Sorted.{IsStrictlySortedBy};
ghost use Rattle.rbs_tree.specs.declared.names.TypeName.{TypeName};
ghost use Rattle.sig_rules.specs.Declarations.{Path, declared_path, full_name};
ghost use Rattle.sig_rules.specs.Sorted.{AreNames, PutsAside, at_place, PutsIn, SortsOneMore, Sorts, is_among, path_cmp, paths_of};

use crate::Declared;
use crate::clashes::counts_beside;
use crate::declared_name::declared_words;
use crate::search::place_of;
use rbs_tree::TypeName;
use src_text::{Mem, Seq};
use std::alloc::Global;

/// Where a declaration stands.
#[derive(Clone, Copy, Debug)]
pub(crate) enum Place {
    /// Among those of a name that count: the name's place, and the declaration's among them.
    Counting(usize, usize),
    /// Among those that don't count.
    Other(usize),
}

/// Declarations by their names.
#[derive(Debug, Drop)]
pub(crate) struct Sorted {
    /// The names, which rise.
    pub(crate) names: Seq<TypeName>,
    /// For each name the declarations that count, in order.
    pub(crate) groups: Vec<Seq<Declared>>,
    /// Those that don't count, in order.
    pub(crate) others: Seq<Declared>,
    /// The place of each declaration, in order.
    pub(crate) places: Seq<Place>,
}

impl Sorted {
    /// These declarations by their names, which are given.
    pub(crate) fn of(alloc: Global, names: Seq<TypeName>, all: Seq<Declared>) -> Mem<Sorted>
        requires { AreNames all names }
        ensures sorts { IfOk result (λ sorted. Sorts sorted all) }
        ensures names { IfOk result (λ sorted. sorted.names ≡ names) }
    {
        let mut sorted = Sorted::new(alloc, names)?;
        for declared in all.into_vec() {
            sorted.put(declared)?;
        }
        Ok(sorted)
    }

    /// No declarations yet, for these names.
    pub(crate) fn new(alloc: Global, names: Seq<TypeName>) -> Mem<Sorted>
        requires rising { IsStrictlySortedBy path_cmp (paths_of names) }
        requires full { names ≡ map full_name (paths_of names) }
        ensures sorts { IfOk result (λ sorted. Sorts sorted []) }
        ensures names { IfOk result (λ sorted. sorted.names ≡ names) }
    {
        let groups = empty_groups(alloc, names.as_slice())?;
        Ok(Sorted {
            names,
            groups,
            others: Seq::new(alloc),
            places: Seq::new(alloc),
        })
    }

    /// Puts a declaration behind the others. Its name is searched in as many comparisons as the number of names has binary digits.
    pub(crate) fn put(&mut self, declared: Declared) -> Mem<()>
        requires rising { IsStrictlySortedBy path_cmp (paths_of self.old.names) }
        requires groups { length self.old.groups.items ≡ length self.old.names }
        ensures names { OnOk result (self.new.names ≡ self.old.names) }
        ensures sorts { OnOk result (SortsOneMore self.old self.new declared) }
    {
        match self.group_of(&declared) {
            None => self.put_aside(declared),
            Some(group) => {
                if counts_beside(self.groups[group].as_slice(), &declared) {
                    self.put_in(group, declared)
                } else {
                    self.put_aside(declared)
                }
            }
        }
    }

    // The place of a declaration's name among the names.
    fn group_of(&self, declared: &Declared) -> Option<usize>
        requires rising { IsStrictlySortedBy path_cmp (paths_of self.now.names) }
        ensures some { IfSome result (λ group. option_map (λ (n : TypeName). n.path) (slice_get self.now.names group) ≡ declared_path declared.now) }
        ensures within { IfSome result (λ group. group < length self.now.names) }
        ensures none { IfNone result ((path : Path) → declared_path declared.now ≡ Some path → is_among self.now.names path ≡ false) }
    {
        let (front, back) = declared_words(declared)?;
        place_of(self.names.as_slice(), front, back)
    }

    /// What stands at a place.
    pub(crate) fn at(&self, place: Place) -> Option<&Declared>
        ensures { option_copied result ≡ at_place self.now.groups.items self.now.others place }
    {
        match place {
            Place::Counting(group, at) => self.groups.get(group)?.get(at),
            Place::Other(at) => self.others.get(at),
        }
    }

    // Puts a declaration behind those of a name that count.
    fn put_in(&mut self, group: usize, declared: Declared) -> Mem<()>
        requires { group < length self.old.groups.items }
        ensures { OnOk result (PutsIn self.old self.new group declared) }
    {
        let counting = &mut self.groups[group];
        let place = Place::Counting(group, counting.len());
        counting.push(declared)?;
        self.places.push(place)
    }

    // Puts a declaration behind those that don't count.
    fn put_aside(&mut self, declared: Declared) -> Mem<()>
        ensures { OnOk result (PutsAside self.old self.new declared) }
    {
        let place = Place::Other(self.others.len());
        self.others.push(declared)?;
        self.places.push(place)
    }
}

// As many empty groups as there are names.
fn empty_groups(alloc: Global, names: &[TypeName]) -> Mem<Vec<Seq<Declared>>>
    ensures { IfOk result (λ groups. groups.items ≡ map (λ (n : TypeName). []) names.now) }
{
    let mut groups = Vec::with_capacity(alloc, names.len())?;
    for _name in names {
        groups.push(Seq::from_vec(Vec::with_capacity(alloc, 1)?))?;
    }
    Ok(groups)
}
