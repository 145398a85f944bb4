ghost use Rattle.std.specs.Prelude.{◌≡◌, map, IfOk};
ghost use Rattle.std.specs.List.Sorted.{IsPermutation};

use rbs_tree::TypeName;
use sig_rules::{Kind, Lines};
use src_text::Mem;
use std::alloc::Global;

/// These full names, each behind the number of steps of its line of instances, those first that have few. So a class stands before those
/// that are below it.
pub(crate) fn short_lines_first<'a, L: Lines>(
    alloc: Global,
    lines: &L,
    list: &'a [TypeName],
) -> Mem<Vec<(usize, &'a TypeName)>>
    ensures { IfOk result (λ order. IsPermutation list.now (map (λ e. e.1.now) order.items)) }
{
    let mut order = measured(alloc, lines, list)?;
    order.sort_unstable_by_key(|e| e.0);
    Ok(order)
}

// These full names, each behind the number of steps of its line of instances.
fn measured<'a, L: Lines>(
    alloc: Global,
    lines: &L,
    list: &'a [TypeName],
) -> Mem<Vec<(usize, &'a TypeName)>>
    ensures { IfOk result (λ order. map (λ e. e.1.now) order.items ≡ list.now) }
{
    let mut order = Vec::new(alloc);
    for name in list {
        order.push((steps_count(lines, name), name))?;
    }
    Ok(order)
}

// The number of steps of the line of instances of a full name, if it has one.
fn steps_count<L: Lines>(lines: &L, name: &TypeName) -> usize {
    match lines.line(name, Kind::Instance) {
        None => 0,
        Some(line) => line.steps.len(),
    }
}
