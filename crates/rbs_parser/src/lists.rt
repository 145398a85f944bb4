ghost use Rattle.std.specs.Prelude.{◌≡◌, ◌++◌, ◌∷◌, [], IfOk, OnOk};

use src_text::{Mem, Seq};
use std::alloc::Global;

/// Puts an item at the end of a list. The first gets room for itself alone, since most lists of a signature have one item.
pub fn push<T: Drop>(alloc: Global, list: &mut Seq<T>, item: T) -> Mem<()>
    ensures { OnOk result (list.new ≡ list.old ++ item ∷ []) }
{
    if list.is_empty() {
        *list = list_of(alloc, item)?;
        Ok(())
    } else {
        list.push(item)
    }
}

// The list of one item.
fn list_of<T: Drop>(alloc: Global, item: T) -> Mem<Seq<T>>
    ensures { IfOk result (λ list. list ≡ item ∷ []) }
{
    let mut items = Vec::with_capacity(alloc, 1)?;
    items.push(item)?;
    Ok(Seq::from_vec(items))
}
