ghost use Rattle.std.specs.Prelude.{◌≡◌, ◌++◌, ℕ, List, not, ◌&&◌, codes, filter, IfOk};
ghost use Rattle.std.specs.Option.{is_some, option_copied};
ghost use Rattle.sig_rules.specs.declared.method.Method.{Method};
ghost use Rattle.sig_rules.specs.Methods.{same_word};
ghost use Rattle.sig_rules.specs.Worlds.{by_name};

use method_steps::NameTable;
use sig_rules::{Method, Shared};
use src_text::{Mem, Seq, Text};
use std::alloc::Global;

/// Methods by name, each name once, which other lists may have too.
pub(crate) type Methods = Seq<Shared<(Text, Method)>>;

/// The entries whose names aren't in a table.
pub(crate) fn without<V: Drop, W>(
    alloc: Global,
    entries: Seq<Shared<(Text, V)>>,
    names: &NameTable<W>,
) -> Mem<Seq<Shared<(Text, V)>>>
    ensures { IfOk result (λ others. others ≡ filter (λ (e : List ℕ × V). not (is_some (by_name names.now e.0))) entries) }
{
    let mut others = Seq::new(alloc);
    for entry in entries.into_vec() {
        if !names.has(&entry.get().0) {
            others.push(entry)?;
        }
    }
    Ok(others)
}

/// The entries of two lists, one list after the other, without those of the second whose names are among these few.
pub(crate) fn in_front_of_others<V: Drop, W>(
    first: Seq<Shared<(Text, V)>>,
    second: Seq<Shared<(Text, V)>>,
    names: &[(Text, W)],
) -> Mem<Seq<Shared<(Text, V)>>>
    ensures { IfOk result (λ both. both ≡ first ++ filter (λ (e : List ℕ × V). not (is_some (by_name names.now e.0))) second) }
{
    let mut both = first.into_vec();
    both.reserve(second.len())?;
    for entry in second.into_vec() {
        if !has_name(names, &entry.get().0) {
            both.push(entry)?;
        }
    }
    Ok(Seq::from_vec(both))
}

// Whether a name is among these few.
fn has_name<W>(names: &[(Text, W)], name: &Text) -> bool
    ensures { result ≡ is_some (by_name names.now name.now) }
{
    let mut rest = names;
    while let [entry, more @ ..] = rest {
        if *name == entry.0 {
            return true;
        }
        rest = more;
    }
    false
}

/// The entries of two lists, one list after the other.
pub(crate) fn joined<V: Drop>(
    first: Seq<Shared<(Text, V)>>,
    second: Seq<Shared<(Text, V)>>,
) -> Mem<Seq<Shared<(Text, V)>>>
    ensures { IfOk result (λ both. both ≡ first ++ second) }
{
    let mut both = first.into_vec();
    let mut more = second.into_vec();
    both.append(&mut more)?;
    Ok(Seq::from_vec(both))
}

/// The same entries in another list.
pub(crate) fn shared<V: Drop>(
    alloc: Global,
    entries: &[Shared<(Text, V)>],
) -> Mem<Seq<Shared<(Text, V)>>>
    ensures { IfOk result (λ same. same ≡ entries.now) }
{
    let mut same = Vec::with_capacity(alloc, entries.len())?;
    let mut rest = entries;
    while let [entry, more @ ..] = rest {
        same.push(entry.share()?)?;
        rest = more;
    }
    Ok(Seq::from_vec(same))
}

/// The same entries but those of the name `new`, in another list.
pub(crate) fn shared_but_new(alloc: Global, methods: &[Shared<(Text, Method)>]) -> Mem<Methods>
    ensures { IfOk result (λ same. same ≡ filter (λ (e : List ℕ × Method). not (same_word e.0 (codes "new"))) methods.now) }
{
    let mut same = Vec::with_capacity(alloc, methods.len())?;
    let mut rest = methods;
    while let [entry, more @ ..] = rest {
        if !is_new(entry) {
            same.push(entry.share()?)?;
        }
        rest = more;
    }
    Ok(Seq::from_vec(same))
}

// Whether an entry is that of the name `new`.
fn is_new(entry: &Shared<(Text, Method)>) -> bool
    ensures { result ≡ same_word entry.now.0 (codes "new") }
{
    entry.get().0.as_str() == "new"
}

/// Entries, from now on with several owners.
pub(crate) fn shared_each<V: Drop>(
    alloc: Global,
    entries: Seq<(Text, V)>,
) -> Mem<Seq<Shared<(Text, V)>>>
    ensures { IfOk result (λ shared. shared ≡ entries) }
{
    let mut shared = Seq::new(alloc);
    for entry in entries.into_vec() {
        shared.push(Shared::new(alloc, entry)?)?;
    }
    Ok(shared)
}

/// The method of a name among these.
pub(crate) fn method_named<'a>(
    methods: &'a [Shared<(Text, Method)>],
    name: &str,
) -> Option<&'a Method>
    ensures { option_copied result ≡ by_name methods.now name.now }
{
    let mut rest = methods;
    while let [entry, more @ ..] = rest {
        let (key, method) = entry.get();
        if name == key.as_str() {
            return Some(method);
        }
        rest = more;
    }
    None
}
