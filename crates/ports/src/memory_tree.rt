ghost use Rattle.std.specs.Prelude.{◌≡◌, ◌+◌, ◌==◌, ◌↔◌, true, false, not, length, drop, IfOk, IsTrue, IsErrOf, MatchOption, Some};
ghost use Rattle.std.specs.List.{filter_map, take_while, list_all, list_any};
ghost use Rattle.ports.specs.Tree as spec;
ghost use Rattle.ports.specs.Tree.{content_at, entry_below, is_below, HasTreeCause, IsNoFailure, IsListing};

use crate::calls::Calls;
use crate::listing::listing_of;
use crate::{Content, Entry, Failed, Listing, Tree, TreeFault};
use src_text::{Mem, Seq, Text};
use std::alloc::Global;

/// A tree in memory.
#[derive(Debug, Drop)]
pub struct MemTree {
    files: Seq<(Text, Seq<u8>)>,
    calls: Calls,
    ghost is_map: { IsTrue (spec.is_file_map files) },
}

impl MemTree {
    ghost use Rattle.ports.specs.Calls.{no_calls};
    ghost use Rattle.ports.specs.MemTree.{calls_of};

    /// A tree of these files, each a path with its bytes. The calls that `failing` numbers fail: they are counted from 1, those
    /// of `list` and of `read` together.
    pub fn new(files: Seq<(Text, Seq<u8>)>, failing: Seq<u64>) -> MemTree
        requires { IsTrue (spec.is_file_map files) }
        ensures files { ⟦<MemTree as Tree>⟧.files result ≡ Some files }
        ensures no_fault { ⟦<MemTree as Tree>⟧.faults result ≡ 0 }
        ensures calls { calls_of result ≡ no_calls failing }
    {
        MemTree {
            files,
            calls: Calls::new(failing),
        }
    }
}

impl Tree for MemTree {
    ghost use Rattle.ports.specs.Calls.{fails_next, after_call};
    ghost use Rattle.ports.specs.MemTree.{calls_of, files_of};

    ghost files = { λ t. Some t.files };

    ghost faults = { λ t. t.calls.faults };

    fn list(&mut self, alloc: Global, folder: &str) -> Result<Listing, TreeFault>
        ensures fails { IsErrOf result TreeFault.Failed ↔ IsTrue (fails_next (calls_of self.old)) }
        ensures after { calls_of self.new ≡ after_call (calls_of self.old) }
        ensures same { files_of self.new ≡ files_of self.old }
        ensures listing { IfOk result (λ listing. IsListing (files_of self.old) folder.now listing) }
        ensures cause { HasTreeCause (calls_of self.old).faults (calls_of self.new).faults result }
    {
        if let Err(Failed) = self.calls.begin() {
            return Err(TreeFault::Failed);
        }
        match entries_in(alloc, self.files.as_slice(), folder) {
            Ok(entries) => Ok(listing_of(entries)),
            Err(_) => Err(TreeFault::NoMemory),
        }
    }

    fn read(&mut self, alloc: Global, path: &str) -> Result<Content, TreeFault>
        ensures fails { IsErrOf result TreeFault.Failed ↔ IsTrue (fails_next (calls_of self.old)) }
        ensures after { calls_of self.new ≡ after_call (calls_of self.old) }
        ensures same { files_of self.new ≡ files_of self.old }
        ensures content { IfOk result (λ content. content ≡ content_at (files_of self.old) path.now) }
        ensures cause { HasTreeCause (calls_of self.old).faults (calls_of self.new).faults result }
    {
        if let Err(Failed) = self.calls.begin() {
            return Err(TreeFault::Failed);
        }
        content_among(alloc, self.files.as_slice(), path)
    }

    ghost is_map = { λ t. t.is_map };
}

// The bytes of the file at a path.
fn content_among(alloc: Global, files: &[(Text, Seq<u8>)], path: &str) -> Result<Content, TreeFault>
    ensures content { IfOk result (λ content. content ≡ content_at files.now path.now) }
    ensures never { IsNoFailure result }
{
    let mut rest = files;
    while let [(name, bytes), more @ ..] = rest {
        if name.as_str() == path {
            return match Seq::from_slice(alloc, bytes.as_slice()) {
                Ok(copy) => Ok(Content::Found(copy)),
                Err(_) => Err(TreeFault::NoMemory),
            };
        }
        rest = more;
    }
    Ok(Content::Absent)
}

// The entries that the files make in a folder, one for each file below it.
fn entries_in(alloc: Global, files: &[(Text, Seq<u8>)], folder: &str) -> Mem<Vec<Entry>>
    ensures { IfOk result
        (λ entries. entries.items ≡ filter_map (entry_below folder.now) files.now) }
{
    let mut entries = Vec::new(alloc);
    for file in files {
        if let Some(entry) = entry_of(alloc, folder, file)? {
            entries.push(entry)?;
        }
    }
    Ok(entries)
}

// The entry that a file makes in a folder above it.
fn entry_of(alloc: Global, folder: &str, file: &(Text, Seq<u8>)) -> Mem<Option<Entry>>
    ensures { IfOk result (λ entry. entry ≡ entry_below folder.now file.now) }
{
    match rest_below(folder, file.0.as_str()) {
        None => Ok(None),
        Some(rest) => {
            let (name, folder) = first_name(rest);
            let name = Text::from_str(alloc, name)?;
            Ok(Some(Entry { name, folder }))
        }
    }
}

// What stands in a path behind a folder and its `/`.
fn rest_below<'a>(folder: &str, path: &'a str) -> Option<&'a str>
    ensures { MatchOption result (is_below folder.now path.now ≡ false)
        (λ rest. (is_below folder.now path.now ≡ true) × (rest.now ≡ drop (length folder.now + 1) path.now)) }
{
    path.strip_prefix(folder)?.strip_prefix('/')
}

// The name up to the next `/`, and whether there is one.
fn first_name(rest: &str) -> (&str, bool)
    ensures name { result.0.now ≡ take_while (λ b. not (b == 47)) rest.now }
    ensures folder { result.1 ≡ list_any (λ b. b == 47) rest.now }
{
    match rest.split_once('/') {
        Some((name, _)) => (name, true),
        None => (rest, false),
    }
}

/// Whether a tree may have these files: the paths rise strictly by bytes, and none is a folder of another. It compares every two
/// paths, so it serves short tables of tests.
pub fn is_file_map(files: &[(Text, Seq<u8>)]) -> bool
    ensures { result ≡ spec.is_file_map files.now }
{
    let mut rest = files;
    while let [(path, _), more @ ..] = rest {
        if !stands_before_all(path.as_str(), more) {
            return false;
        }
        rest = more;
    }
    true
}

// Whether a path may stand before those of all these files.
fn stands_before_all(path: &str, files: &[(Text, Seq<u8>)]) -> bool
    ensures { result ≡ list_all (λ file. spec.stands_before path.now file.0) files.now }
{
    files
        .iter()
        .all(|(other, _)| stands_before(path, other.as_str()))
}

// Whether a path may stand before another one.
fn stands_before(path: &str, other: &str) -> bool
    ensures { result ≡ spec.stands_before path.now other.now }
{
    path < other && rest_below(path, other).is_none()
}
