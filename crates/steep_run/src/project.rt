ghost use Rattle.std.specs.Prelude.{◌≡◌, ◌≤◌, IfOk, IfSome, None};
ghost use Rattle.ports.specs.Tree.{bytes_at, HasTreeCause};
ghost use Rattle.steep_run.specs.Project.{project_of, rooted, text_of, without_slashes, first_too_long};

use ports::{Content, Tree, TreeFault};
use src_text::{Mem, Text};
use std::alloc::Global;

/// The path of the signature file, below the root.
pub const SIGNATURE: &str = "sig/a.rbs";

/// The path of the Ruby file, below the root.
pub const RUBY: &str = "lib/a.rb";

// The greatest length of a text, in bytes.
const LONGEST: usize = 1_048_576;

/// The texts of the project's two files.
#[derive(Debug, Drop)]
pub struct Project {
    pub signature: Text,
    pub ruby: Text,
}

/// The project below a root, whose signature is read first.
pub fn read_project<T: Tree>(alloc: Global, tree: &mut T, root: &str) -> Result<Project, TreeFault>
    ensures same { T.files tree.new ≡ T.files tree.old }
    ensures project { IfSome (T.files tree.old) (λ files. IfOk result (λ project. project ≡ project_of root.now files)) }
    ensures cause { HasTreeCause (T.faults tree.old) (T.faults tree.new) result }
{
    let signature = read_text(alloc, tree, root, SIGNATURE)?;
    let ruby = read_text(alloc, tree, root, RUBY)?;
    Ok(Project { signature, ruby })
}

/// The length of the first text by path that is longer than it may be, if there is one.
pub fn first_too_long(project: &Project) -> Option<u64>
    ensures { result ≡ first_too_long project.now }
{
    let ruby = project.ruby.as_str().len();
    if ruby > LONGEST {
        return Some(ruby as u64);
    }
    let signature = project.signature.as_str().len();
    if signature > LONGEST {
        return Some(signature as u64);
    }
    None
}

// The text that stands at a path below the root, which is empty where nothing does.
fn read_text<T: Tree>(
    alloc: Global,
    tree: &mut T,
    root: &str,
    path: &str,
) -> Result<Text, TreeFault>
    ensures same { T.files tree.new ≡ T.files tree.old }
    ensures text { IfSome (T.files tree.old) (λ files. IfOk result (λ text. text ≡ text_of (bytes_at files (rooted root.now path.now)))) }
    ensures cause { HasTreeCause (T.faults tree.old) (T.faults tree.new) result }
{
    let Ok(place) = rooted(alloc, root, path) else {
        return Err(TreeFault::NoMemory);
    };
    match tree.read(alloc, place.as_str())? {
        Content::Absent => Ok(Text::new(alloc)),
        Content::Found(bytes) => match String::from_utf8_lossy(alloc, bytes.as_slice()) {
            Ok(text) => Ok(Text::from_string(text)),
            Err(_) => Err(TreeFault::NoMemory),
        },
    }
}

// Where a path of the project stands in a tree.
fn rooted(alloc: Global, root: &str, path: &str) -> Mem<Text>
    ensures { IfOk result (λ place. place ≡ rooted root.now path.now) }
{
    if root == "." {
        return Text::from_str(alloc, path);
    }
    let mut place = Text::from_str(alloc, without_slashes(root))?;
    place.push_str("/")?;
    place.push_str(path)?;
    Ok(place)
}

// A folder without the slashes at its end.
fn without_slashes(folder: &str) -> &str
    ensures { result.now ≡ without_slashes folder.now }
{
    let bytes = folder.as_bytes();
    let mut end = folder.len();
    while end > 0 && bytes[end - 1] == b'/' {
        end -= 1;
    }
    &folder[..end]
}
