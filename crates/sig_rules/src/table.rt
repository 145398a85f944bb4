ghost use Rattle.std.specs.Prelude.{◌≡◌, ◌≤◌, ◌++◌, Some, None, if◌then◌else◌, slice_get, IfOk, OnOk, IfErr};
ghost use Rattle.std.specs.Option.{option_copied};
ghost use Rattle.sig_rules.specs.Declarations.{declared_in_all, entries, full_name};
ghost use Rattle.sig_rules.specs.Limits.{IsTableFault, most_names, names_count};
ghost use Rattle.sig_rules.specs.Names.{is_known};

use crate::places::Places;
use crate::sorted::Sorted;
use crate::sorted_names::sorted_names;
use crate::walk::declared;
use crate::{Declared, FileTree, TableFault};
use rbs_tree::TypeName;
use src_text::{Seq, Text};
use std::alloc::Global;
use std::marker::Model;

/// So many names may be declared.
const MOST_NAMES: usize = 65_536;

/// All declarations of a project's signature files, of which those of a name are found.
///
/// Contracts see a table as the list of all declarations. A name is found by a hash table, in a time that doesn't grow with the number
/// of names.
#[derive(Debug, Drop)]
pub struct Table {
    sorted: Sorted,
    places: Places,
}

impl Model for Table {
    ghost use Rattle.std.specs.Prelude.{List};
    ghost use Rattle.sig_rules.specs.declared.files.Declared.{Declared};

    ghost Value = { List Declared };

    ghost use Rattle.std.specs.Coded.{coded_list};
    ghost use Rattle.sig_rules.specs.contracts.files.Declared.{the_row};

    ghost coded = { coded_list the_row.coded };

    ghost use Rattle.sig_rules.specs.Declarations.{somes};
    ghost use Rattle.sig_rules.specs.Sorted.{whole};
    ghost use Rattle.sig_rules.specs.Places.{Finds};

    ghost view = { λ t. somes (whole t.sorted) };

    ghost invariant = { λ t. Finds t.sorted t.places (somes (whole t.sorted)) };
}

impl Table {
    /// The table of the declarations of these files, unless more than 65,536 names are declared.
    pub fn new(alloc: Global, files: &[FileTree]) -> Result<Table, TableFault>
        ensures all { IfOk result (λ table. table ≡ declared_in_all files.now) }
        ensures few { OnOk result (names_count (declared_in_all files.now) ≤ most_names) }
        ensures fault { IfErr result (IsTableFault (declared_in_all files.now)) }
    {
        let all = declared(alloc, files)?;
        Table::of(alloc, all)
    }

    /// The table of these declarations, unless more than 65,536 names are declared.
    pub fn of(alloc: Global, all: Seq<Declared>) -> Result<Table, TableFault>
        ensures all { IfOk result (λ table. table ≡ all) }
        ensures few { OnOk result (names_count all ≤ most_names) }
        ensures fault { IfErr result (IsTableFault all) }
    {
        let names = sorted_names(alloc, all.as_slice())?;
        let count = names.len();
        if count > MOST_NAMES {
            return Err(TableFault::Names(count as u64));
        }
        let places = Places::of(alloc, names.as_slice())?;
        let sorted = Sorted::of(alloc, names, all)?;
        Ok(Table { sorted, places })
    }

    /// The declarations of a name that count.
    pub fn entries(&self, name: &TypeName) -> &[Declared]
        ensures { result.now ≡ entries self.now name.now.path }
    {
        match self.places.find(&[], name.path.as_slice()) {
            None => &[],
            Some(at) => self.sorted.groups[at].as_slice(),
        }
    }

    /// The declaration at a place in the list of all.
    pub fn decl_at(&self, i: u64) -> Option<&Declared>
        ensures { option_copied result ≡ slice_get self.now i }
    {
        let place = self.sorted.places.get(i as usize)?;
        self.sorted.at(*place)
    }

    /// The full name with the words of these two lists, one behind the other, if some declaration of it counts.
    pub fn full(&self, front: &[Text], back: &[Text]) -> Option<&TypeName>
        ensures { option_copied result ≡ (if is_known self.now (front.now ++ back.now) then Some (full_name (front.now ++ back.now)) else None) }
    {
        let at = self.places.find(front, back)?;
        if self.sorted.groups[at].is_empty() {
            None
        } else {
            self.sorted.names.get(at)
        }
    }
}
