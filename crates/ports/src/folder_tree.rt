ghost use Rattle.std.specs.Prelude.{◌≡◌, ◌≤◌, None};
ghost use Rattle.ports.specs.Causes.{Rose};

use crate::listing::listing_of;
use crate::{Content, Entry, Listing, Tree, TreeFault};
use src_text::{Seq, Text};
use std::alloc::Global;
use std::rt::Files;
use std::{fs, io};

/// The real files, by paths from the folder that the program runs in. It tells nothing of them.
///
/// A listing leaves out links, and all else that is neither a file nor a folder, and a path at which such a thing stands has no
/// file. A folder in which nothing is left has no listing. A name that isn't UTF-8 makes the listing fail.
#[derive(Drop)]
pub struct FolderTree<R: Files + AllocGlobal + Clone + Drop> {
    rt: R,
    faults: u64,
}

impl<R: Files + AllocGlobal + Clone + Drop> FolderTree<R> {
    /// The files that the runtime reaches, with no fault yet.
    pub fn new(rt: R) -> Self
        ensures { ⟦<FolderTree<R> as Tree>⟧.faults result ≡ 0 }
    {
        FolderTree { rt, faults: 0 }
    }

    // Why a call failed, with its fault counted. Want of memory is no fault.
    fn fault(&mut self, error: io::Error) -> TreeFault
        ensures later { self.old.faults ≤ self.new.faults }
        ensures failed { result ≡ TreeFault.Failed → Rose self.old.faults self.new.faults }
        ensures no_memory { result ≡ TreeFault.NoMemory → self.new.faults ≡ self.old.faults }
    {
        if error.kind() == io::ErrorKind::OutOfMemory {
            return TreeFault::NoMemory;
        }
        self.faults = self.faults.saturating_add(1);
        TreeFault::Failed
    }
}

impl<R: Files + AllocGlobal + Clone + Drop> Tree for FolderTree<R> {
    ghost files = { λ t. None };

    ghost faults = { λ t. t.faults };

    fn list(&mut self, alloc: Global, folder: &str) -> Result<Listing, TreeFault> {
        match entries_in(&self.rt, alloc, folder) {
            Ok(entries) => Ok(listing_of(entries)),
            Err(error) if is_missing(&error) => Ok(Listing::Absent),
            Err(error) => Err(self.fault(error)),
        }
    }

    fn read(&mut self, _alloc: Global, path: &str) -> Result<Content, TreeFault> {
        match content_at(&self.rt, path) {
            Ok(content) => Ok(content),
            Err(error) if is_missing(&error) => Ok(Content::Absent),
            Err(error) => Err(self.fault(error)),
        }
    }

    ghost is_map = { λ t. tt };
}

// Whether nothing stands at a path.
fn is_missing(error: &io::Error) -> bool {
    matches!(
        error.kind(),
        io::ErrorKind::NotFound | io::ErrorKind::NotADirectory
    )
}

// The files and folders in a folder, in the order in which the system gives them.
fn entries_in<R: Files + AllocGlobal + Clone + Drop>(
    rt: &R,
    alloc: Global,
    folder: &str,
) -> io::Result<Vec<Entry>> {
    let mut entries = Vec::new(alloc);
    for entry in fs::read_dir(rt, folder)? {
        let entry = entry?;
        let kind = entry.file_type()?;
        if kind.is_file() || kind.is_dir() {
            let name = String::from_str(alloc, entry.file_name())?;
            entries.push(Entry {
                name: Text::from_string(name),
                folder: kind.is_dir(),
            })?;
        }
    }
    Ok(entries)
}

// The bytes of a file. What isn't a file itself, as a link to one, is absent.
fn content_at<R: Files + AllocGlobal>(rt: &R, path: &str) -> io::Result<Content> {
    if !fs::symlink_metadata(rt, path)?.is_file() {
        return Ok(Content::Absent);
    }
    let bytes = fs::read(rt, path)?;
    Ok(Content::Found(Seq::from_vec(bytes)))
}

#[cfg(test)]
mod tests {
    use super::*;
    use crate::tables::{File, Folder, content, listing};
    use std::os::unix::fs::symlink;
    use std::test::Fail;
    use std::{env, process};

    // A file with two bytes, one below a folder, an empty folder, and links to the first file and to the first folder.
    fn make_files(rt: &HostRuntime, base: &str) -> io::Result<()> {
        let alloc = rt.alloc();
        fs::create_dir_all(rt, format!(in alloc; "{base}/a/empty")?)?;
        fs::write(rt, format!(in alloc; "{base}/a.rb")?, "x\n")?;
        fs::write(rt, format!(in alloc; "{base}/a/b.rb")?, "")?;
        symlink(rt, "a.rb", format!(in alloc; "{base}/link.rb")?)?;
        symlink(rt, "a", format!(in alloc; "{base}/link")?)
    }

    const FOLDERS: &[Folder] = &[
        ("", &[("a", true), ("a.rb", false)]),
        ("/a", &[("b.rb", false), ("empty", true)]),
        ("/a/empty", &[]),
        ("/none", &[]),
        ("/a.rb", &[]),
    ];

    const READS: &[File] = &[
        ("/a.rb", Some("x\n")),
        ("/a/b.rb", Some("")),
        ("/a", None),
        ("/none", None),
        ("/a.rb/none", None),
        ("/link.rb", None),
    ];

    #[test]
    fn lists_and_reads_real_files(rt: HostRuntime) -> Result<(), Fail> {
        let alloc = rt.alloc();
        let process = process::id(rt.process());
        let base = env::temp_dir(&rt)?;
        let base = base.as_str();
        let base = format!(in alloc; "{base}/ports_folder_{process}")?;
        let base = base.as_str();
        make_files(&rt, base)?;
        let mut tree = FolderTree::new(rt.clone()?);
        for (folder, names) in FOLDERS {
            let path = format!(in alloc; "{base}{folder}")?;
            assert_eq!(rt;
                tree.list(alloc, path.as_str())?,
                listing(alloc, names)?,
                "{folder}"
            );
        }
        for (path, text) in READS {
            let full = format!(in alloc; "{base}{path}")?;
            assert_eq!(rt;
                tree.read(alloc, full.as_str())?,
                content(alloc, *text)?,
                "{path}"
            );
        }
        assert_eq!(rt; tree.faults, 0);

        // No system takes a name of 400 bytes.
        let long = "long".repeat(alloc, 100)?;
        assert_eq!(rt; tree.list(alloc, long.as_str()), Err(TreeFault::Failed));
        assert_eq!(rt; tree.read(alloc, long.as_str()), Err(TreeFault::Failed));
        assert_eq!(rt; tree.faults, 2);
        fs::remove_dir_all(&rt, base)?;
        Ok(())
    }
}
