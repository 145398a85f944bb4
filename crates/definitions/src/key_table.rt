ghost use Rattle.std.specs.Prelude.{◌≡◌, [], OnOk};
ghost use Rattle.std.specs.Map.{lookup};
ghost use Rattle.std.specs.Option.{option_copied};
ghost use Rattle.definitions.specs.Tables.{Puts};

use indexmap::IndexMap;
use src_text::Mem;
use std::alloc::Global;
use std::hash::Hash;
use std::marker::Model;

/// Values by key.
#[derive(Drop)]
pub(crate) struct KeyTable<K: Eq + Hash, V> {
    entries: IndexMap<K, V>,
}

impl<K: Eq + Hash, V> Model for KeyTable<K, V> {
    ghost use Rattle.std.specs.Prelude.{List};
    ghost use Rattle.std.specs.Coded.{coded_list, coded×};

    ghost Value = { List (K × V) };

    ghost coded = { coded_list (coded× K.code V.code) };

    ghost view = { λ table. table.entries.entries };
}

impl<K: Eq + Hash, V> KeyTable<K, V> {
    /// A table of nothing.
    pub(crate) fn new(alloc: Global) -> KeyTable<K, V>
        ensures { result ≡ [] }
    {
        KeyTable {
            entries: IndexMap::new(alloc),
        }
    }

    /// The value of a key.
    pub(crate) fn get(&self, key: &K) -> Option<&V>
        ensures { option_copied result ≡ lookup (K.eq key.now) self.now }
    {
        self.entries.get(key)
    }
}

impl<K: Eq + Hash + Drop, V: Drop> KeyTable<K, V> {
    /// Puts the value of a key, in the place of one that it has.
    pub(crate) fn put(&mut self, key: K, value: V) -> Mem<()>
        ensures { OnOk result (Puts K.eq self.old self.new key value) }
    {
        self.entries.insert(key, value)?;
        Ok(())
    }
}
