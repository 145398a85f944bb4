ghost use Rattle.std.specs.Prelude.{◌≡◌, IfOk, Ok};

use src_text::{Mem, NoMemory};

/// Puts a value in the place of another.
pub fn put<T: Drop>(place: &mut T, value: T)
    ensures { place.new ≡ value }
{
    *place = value;
}

/// A value, where what was to be done with it has been done.
///
/// A tree is made by this rather than by a `?` beside it, since each `?` has to drop the parts of the tree.
pub fn once_done<T: Drop>(done: Mem<()>, value: T) -> Mem<T>
    ensures value { IfOk result (λ v. v ≡ value) }
    ensures done { IfOk result (λ v. done ≡ Ok tt) }
{
    match done {
        Ok(()) => Ok(value),
        Err(NoMemory) => Err(NoMemory),
    }
}
