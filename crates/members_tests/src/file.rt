use definitions::FreshTable;
use rbs_parser::parse;
use rbs_tree::TypeName;
use sig_rules::{FileTree, LimitFault, Names, joined_name};
use src_text::{Mem, NoMemory, Seq, Text};
use std::alloc::Global;

const FILE: &str = "sig/a.rbs";

/// The table of the core signatures and a file with this text. One that isn't read counts as too much for the memory.
pub fn table_of(alloc: Global, text: &str) -> Result<FreshTable, LimitFault> {
    let mut files = Seq::new(alloc);
    files.push(file_of(alloc, text)?)?;
    FreshTable::new(alloc, files.as_slice())
}

fn file_of(alloc: Global, text: &str) -> Mem<FileTree> {
    if text.len() >= 1 << 32 {
        return Err(NoMemory);
    }
    let path = Text::from_str(alloc, FILE)?;
    match parse(alloc, text) {
        Ok(decls) => Ok(FileTree { path, decls }),
        Err(_) => Err(NoMemory),
    }
}

/// Whether the file declares this name, be it beside the core signatures.
pub fn is_own<N: Names>(names: &N, name: &TypeName) -> bool {
    for declared in names.entries(name) {
        if declared.path.as_str() == FILE {
            return true;
        }
    }
    false
}

/// The full name of one word.
pub fn name_of(alloc: Global, word: &str) -> Mem<TypeName> {
    let mut words = Seq::new(alloc);
    words.push(Text::from_str(alloc, word)?)?;
    joined_name(alloc, words.as_slice(), &[])
}
