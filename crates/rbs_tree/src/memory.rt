ghost use Rattle.std.specs.Prelude.{◌≡◌, IfOk, Ok};

use src_text::{Mem, NoMemory};

/// The values of two calls, where both had memory.
///
/// A tree of many parts is made by this rather than by a `?` for each part, since each `?` has to drop the parts before it.
pub fn both<A: Drop, B: Drop>(first: Mem<A>, second: Mem<B>) -> Mem<(A, B)>
    ensures first { IfOk result (λ values. first ≡ Ok values.0) }
    ensures second { IfOk result (λ values. second ≡ Ok values.1) }
{
    match (first, second) {
        (Ok(first), Ok(second)) => Ok((first, second)),
        _ => Err(NoMemory),
    }
}
