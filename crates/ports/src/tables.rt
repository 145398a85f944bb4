// What the test of the folder tree writes as tables.
use crate::{Content, Entry, Listing};
use src_text::{Mem, Seq, Text};
use std::alloc::Global;

// A folder, and each name in it with whether it is a folder's. No name stands for `Absent`.
pub(crate) type Folder = (&'static str, &'static [(&'static str, bool)]);

// A path, and the text there. `None` stands for `Absent`.
pub(crate) type File = (&'static str, Option<&'static str>);

pub(crate) fn listing(alloc: Global, names: &'static [(&'static str, bool)]) -> Mem<Listing> {
    if names.is_empty() {
        return Ok(Listing::Absent);
    }
    let mut entries = Seq::new(alloc);
    for (name, folder) in names {
        entries.push(Entry {
            name: Text::from_str(alloc, name)?,
            folder: *folder,
        })?;
    }
    Ok(Listing::Found(entries))
}

pub(crate) fn content(alloc: Global, text: Option<&'static str>) -> Mem<Content> {
    match text {
        None => Ok(Content::Absent),
        Some(text) => Ok(Content::Found(Seq::from_slice(alloc, text.as_bytes())?)),
    }
}
