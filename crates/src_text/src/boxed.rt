ghost use Rattle.std.specs.Prelude.{◌≡◌, IfOk};

use crate::Mem;
use std::alloc::Global;
use std::cmp::Ordering;
use std::marker::Model;

/// A `Box` that contracts see as its value, so that a type may hold itself through it.
#[derive(Debug, Drop)]
pub struct Boxed<T> {
    inner: Box<T>,
}

impl<T> Model for Boxed<T> {
    ghost Value = { T };

    ghost coded = { T.code };

    ghost view = { λ b. b.inner.value };
}

impl<T> Boxed<T> {
    pub fn get(&self) -> &T
        ensures { result.now ≡ self.now }
    {
        &self.inner
    }

    pub fn into_inner(self) -> T
        ensures { result ≡ self }
    {
        let Boxed { inner } = self;
        Box::into_inner(inner)
    }
}

impl<T: Drop> Boxed<T> {
    pub fn new(alloc: Global, value: T) -> Mem<Boxed<T>>
        ensures { IfOk result (λ b. b ≡ value) }
    {
        Ok(Boxed {
            inner: Box::new(alloc, value)?,
        })
    }
}

impl<T: PartialEq> PartialEq for Boxed<T> {
    ghost eq = { λ x y. T.eq x y };

    ghost laws = { T.laws };

    fn eq(&self, other: &Self) -> bool {
        *self.get() == *other.get()
    }
}

impl<T: Eq> Eq for Boxed<T> {
    ghost laws = { T.Eq.laws };
}

impl<T: PartialOrd> PartialOrd for Boxed<T> {
    ghost partial_cmp = { λ x y. T.partial_cmp x y };

    ghost laws = { T.PartialOrd.laws };

    fn partial_cmp(&self, other: &Self) -> Option<Ordering> {
        self.get().partial_cmp(other.get())
    }
}

impl<T: Ord> Ord for Boxed<T> {
    ghost cmp = { λ x y. T.cmp x y };

    ghost total = { T.total };

    ghost matches_partial_cmp = { λ x y. T.matches_partial_cmp x y };

    ghost matches_eq = { λ x y. T.matches_eq x y };

    fn cmp(&self, other: &Self) -> Ordering {
        self.get().cmp(other.get())
    }
}
