//! What signatures declare: the table of all declarations, in which those of a name are found.
//!
//! A table has exactly the declarations of the files that it is made of, and gives for each name those that count. What a name in a
//! text stands for isn't known here.
#![tactic(auto)]

mod clashes;
mod declared_name;
mod files;
mod given;
mod laws;
mod limits;
mod line;
mod members;
mod memo;
mod method;
mod names;
mod naming;
mod own;
mod places;
mod search;
mod shared;
mod sort;
mod sorted;
mod sorted_names;
mod steps;
mod table;
mod walk;
mod words;

pub use files::{Declared, FileTree};
pub use given::{GivenMethod, GivenVariable, What};
pub use laws::more_turns_change_nothing;
pub use limits::{BuildFault, Limit, LimitFault, TableFault};
pub use line::{Applied, Kind, Line, Step};
pub use members::{Lines, Members, World};
pub use memo::Memo;
pub use method::{Both, Definition, Method, Visibility};
pub use names::{copy_names, joined_name};
pub use naming::Names;
pub use shared::Shared;
pub use sort::Sort;
pub use steps::Steps;
pub use table::Table;
pub use walk::{declare_file, declare_files, declared};
