ghost use Rattle.std.specs.Prelude.{IsOkAnd};
ghost use Rattle.diagnostics.specs.Order.{IsOrder};

use crate::Diagnostic;
use src_text::{Mem, Seq};
use std::alloc::Global;

/// The diagnostics of a list in the order of `Diagnostic`, each once. It sorts in place, in O(n log n) comparisons.
pub fn order(_alloc: Global, list: Seq<Diagnostic>) -> Mem<Seq<Diagnostic>>
    ensures { IsOkAnd result (λ ordered. IsOrder list ordered) }
{
    let mut items = list.into_vec();
    items.sort_unstable();
    items.dedup();
    Ok(Seq::from_vec(items))
}
