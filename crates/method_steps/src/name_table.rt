ghost use Rattle.std.specs.Prelude.{◌≡◌, ◌+◌, ℕ, List, [], length, Some, None, IfOk, IfSome, IfNone, OnOk, if◌then◌else◌};
ghost use Rattle.std.specs.List.{IsDistinct};
ghost use Rattle.std.specs.Map.{keys_of};
ghost use Rattle.std.specs.Option.{option_copied, is_some};
ghost use Rattle.sig_rules.specs.Methods.{same_word};
ghost use Rattle.sig_rules.specs.Worlds.{by_name};

use indexmap::IndexMap;
use src_text::{Mem, Seq, Text};
use std::alloc::Global;
use std::marker::Model;

/// Values by name, each name once.
#[derive(Drop)]
pub struct NameTable<V> {
    entries: IndexMap<Text, V>,
}

impl<V> Model for NameTable<V> {
    ghost use Rattle.std.specs.Prelude.{List, ℕ};
    ghost use Rattle.std.specs.Coded.{coded_list, coded×, coded_ℕ};

    ghost Value = { List (List ℕ × V) };

    ghost coded = { coded_list (coded× (coded_list coded_ℕ) V.code) };

    ghost view = { λ table. table.entries.entries };
}

impl<V> NameTable<V> {
    /// A table of nothing.
    pub fn new(alloc: Global) -> NameTable<V>
        ensures { result ≡ [] }
    {
        NameTable {
            entries: IndexMap::new(alloc),
        }
    }

    /// The value of a name.
    pub fn get(&self, name: &Text) -> Option<&V>
        ensures { option_copied result ≡ by_name self.now name.now }
    {
        self.entries.get(name)
    }

    /// Whether a name has a value.
    pub fn has(&self, name: &Text) -> bool
        ensures { result ≡ is_some (by_name self.now name.now) }
    {
        self.entries.contains_key(name)
    }

    /// How many names there are.
    pub fn len(&self) -> usize
        ensures { result ≡ length self.now }
    {
        self.entries.len()
    }
}

impl<V: Drop> NameTable<V> {
    /// Puts a value at a name, in place of the one that it has.
    pub fn put(&mut self, name: Text, value: V) -> Mem<()>
        ensures values { OnOk result ((other : List ℕ) → by_name self.new other ≡ (if same_word name other then Some value else by_name self.old other)) }
        ensures count { OnOk result (length self.new ≡ length self.old + (if is_some (by_name self.old name) then 0 else 1)) }
    {
        self.entries.insert(name, value)?;
        Ok(())
    }

    /// Puts a value at a name, in place of the one that it has, or takes the name out of the table.
    pub fn set(&mut self, name: Text, value: Option<V>) -> Mem<()>
        ensures { OnOk result ((other : List ℕ) → by_name self.new other ≡ (if same_word name other then value else by_name self.old other)) }
    {
        match value {
            Some(value) => self.put(name, value),
            None => {
                self.take(&name);
                Ok(())
            }
        }
    }

    /// Takes a name with its value out of the table.
    pub fn take(&mut self, name: &Text) -> Option<(Text, V)>
        ensures none { IfNone result (by_name self.old name.now ≡ None) }
        ensures some { IfSome result (λ entry. by_name self.old name.now ≡ Some entry.1) }
        ensures named { IfSome result (λ entry. entry.0 ≡ name.now) }
        ensures values { (other : List ℕ) → by_name self.new other ≡ (if same_word name.now other then None else by_name self.old other) }
        ensures kept { IfNone result (self.new ≡ self.old) }
        ensures count { length self.new + (if is_some result then 1 else 0) ≡ length self.old }
    {
        self.entries.swap_remove_entry(name)
    }

    /// Takes some name with its value out of the table, as long as there is one.
    pub fn pop(&mut self) -> Option<(Text, V)>
        ensures none { IfNone result (self.old ≡ []) }
        ensures kept { IfNone result (self.new ≡ self.old) }
        ensures some { IfSome result (λ entry. by_name self.old entry.0 ≡ Some entry.1) }
        ensures values { IfSome result (λ entry. (other : List ℕ) → by_name self.new other ≡ (if same_word entry.0 other then None else by_name self.old other)) }
        ensures count { length self.new + (if is_some result then 1 else 0) ≡ length self.old }
    {
        self.entries.pop()
    }

    /// The names with their values, each name once.
    pub fn into_entries(self, alloc: Global) -> Mem<Seq<(Text, V)>>
        ensures same { IfOk result (λ entries. entries ≡ self) }
        ensures once { IfOk result (λ entries. IsDistinct same_word (keys_of entries)) }
    {
        let entries = self.entries.into_iter().collect(alloc)?;
        Ok(Seq::from_vec(entries))
    }
}
