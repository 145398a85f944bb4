ghost use Rattle.std.specs.Prelude.{◌≡◌, ◌++◌, false, slice_get, Some, IfSome, IfNone, IfOk};
ghost use Rattle.std.specs.List.{list_any};
ghost use Rattle.std.specs.List.Sorted.{IsStrictlySortedBy};
ghost use Rattle.sig_rules.specs.Declarations.{same_path};
ghost use Rattle.sig_rules.specs.Sorted.{path_cmp, paths_of};

use crate::words::Words;
use indexmap::IndexSet;
use rbs_tree::{TypeName, copy_texts};
use src_text::{Mem, Seq, Text};
use std::alloc::Global;
use std::marker::Model;

/// At which place of a list of names each stands. Contracts see it as the list of the names' words.
#[derive(Debug, Drop)]
pub(crate) struct Places {
    by_words: IndexSet<Seq<Text>>,
}

impl Model for Places {
    ghost use Rattle.std.specs.Prelude.{List};
    ghost use Rattle.sig_rules.specs.Declarations.{Path};

    ghost Value = { List Path };

    ghost view = { λ p. p.by_words.keys };
}

impl Places {
    /// The places of these names, each of which stands there once.
    pub(crate) fn of(alloc: Global, names: &[TypeName]) -> Mem<Places>
        requires rising { IsStrictlySortedBy path_cmp (paths_of names.now) }
        ensures { IfOk result (λ places. places ≡ paths_of names.now) }
    {
        let mut by_words = IndexSet::with_capacity(alloc, names.len())?;
        for name in names {
            by_words.insert(copy_texts(alloc, name.path.as_slice())?)?;
        }
        Ok(Places { by_words })
    }

    /// The place of the name with the words of these two lists, one behind the other. It takes as long as comparing a few names.
    pub(crate) fn find(&self, front: &[Text], back: &[Text]) -> Option<usize>
        ensures some { IfSome result (λ at. slice_get self.now at ≡ Some (front.now ++ back.now)) }
        ensures none { IfNone result (list_any (same_path (front.now ++ back.now)) self.now ≡ false) }
    {
        self.by_words.get_index_of(Words { front, back })
    }
}
