//! Lists that may be missing, and lists with room.

ghost use Rattle.std.specs.Prelude.{◌≡◌, [], IfOk};
ghost use Rattle.ruby_values.specs.Lists as spec;

use src_text::{Mem, Seq};
use std::alloc::Global;

/// A list, and an empty one where it is missing.
pub fn listed<T>(alloc: Global, list: Option<Seq<T>>) -> Seq<T>
    ensures { result ≡ spec.listed list }
{
    match list {
        Some(list) => list,
        None => Seq::new(alloc),
    }
}

/// An empty list with room for so many items.
pub fn with_room<T>(alloc: Global, items: usize) -> Mem<Seq<T>>
    ensures { IfOk result (λ list. list ≡ []) }
{
    let items = Vec::with_capacity(alloc, items)?;
    Ok(Seq::from_vec(items))
}

/// An empty list with room for every other of so many values, between which separators stand.
pub fn with_room_among<T>(alloc: Global, values: usize) -> Mem<Seq<T>>
    ensures { IfOk result (λ list. list ≡ []) }
{
    with_room(alloc, values / 2 + values % 2)
}
