ghost use Rattle.std.specs.Prelude.{◌≡◌, [], ◌∷◌, ◌++◌, ◌↔◌, IsTrue, OnOk};
ghost use Rattle.ruby_values.specs.Lists.{front, behind_front};

use src_text::{Mem, Seq};
use std::alloc::Global;
use std::collections::VecDeque;
use std::marker::Model;
use std::mem;

/// A list that is taken from its front on, which contracts see as the list of what is left.
#[derive(Drop)]
pub struct Queue<T> {
    items: VecDeque<T>,
}

impl<T> Model for Queue<T> {
    ghost use Rattle.std.specs.Prelude.{List};
    ghost use Rattle.std.specs.Coded.{coded_list};

    ghost Value = { List T };

    ghost coded = { coded_list T.code };

    ghost view = { λ queue. queue.items.items };
}

impl<T> Queue<T> {
    /// An empty list, which takes no memory yet.
    pub fn new(alloc: Global) -> Queue<T>
        ensures { result ≡ [] }
    {
        Queue {
            items: VecDeque::new(alloc),
        }
    }

    /// Whether nothing is left.
    pub fn is_empty(&self) -> bool
        ensures { IsTrue result ↔ (self.now ≡ []) }
    {
        self.items.is_empty()
    }

    /// Takes the item at the front.
    pub fn next(&mut self) -> Option<T>
        ensures item { result ≡ front self.old }
        ensures rest { self.new ≡ behind_front self.old }
    {
        self.items.pop_front()
    }
}

impl<T: Drop> Queue<T> {
    /// Puts an item at the end.
    pub fn push(&mut self, item: T) -> Mem<()>
        ensures { OnOk result (self.new ≡ self.old ++ item ∷ []) }
    {
        self.items.push_back(item)?;
        Ok(())
    }

    /// Lets all that is left go, and keeps the memory.
    pub fn clear(&mut self)
        ensures { self.new ≡ [] }
    {
        self.items.clear();
    }

    /// Takes all that is left.
    pub fn rest(&mut self, alloc: Global) -> Seq<T>
        ensures items { result ≡ self.old }
        ensures none { self.new ≡ [] }
    {
        let left = mem::replace(&mut self.items, VecDeque::new(alloc));
        Seq::from_vec(left.into_vec())
    }
}
