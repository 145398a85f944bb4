ghost use Rattle.std.specs.Prelude.{◌≡◌, IfOk};

use src_text::Mem;
use std::alloc::Global;
use std::marker::Model;
use std::sync::Arc;

/// A value with several owners, which contracts see as the value: what many lines or definitions have in common is held once.
#[derive(Debug, Drop)]
pub struct Shared<T> {
    inner: Arc<T, Global>,
}

impl<T> Model for Shared<T> {
    ghost Value = { T };

    ghost coded = { T.code };

    ghost view = { λ s. s.inner.value };
}

impl<T> Shared<T> {
    pub fn get(&self) -> &T
        ensures { result.now ≡ self.now }
    {
        self.inner.as_ref()
    }

    /// One more owner of the value. It takes no memory, and fails where there are too many to count.
    pub fn share(&self) -> Mem<Shared<T>>
        ensures { IfOk result (λ other. other ≡ self.now) }
    {
        let inner = Arc::try_clone(&self.inner)?;
        Ok(Shared { inner })
    }
}

impl<T: Drop> Shared<T> {
    pub fn new(alloc: Global, value: T) -> Mem<Shared<T>>
        ensures { IfOk result (λ shared. shared ≡ value) }
    {
        Ok(Shared {
            inner: Arc::new(alloc, value)?,
        })
    }
}
