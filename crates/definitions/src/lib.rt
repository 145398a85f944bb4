//! The definitions of classes and modules, and the table of all that a project's signatures define.
//!
//! [`build`] makes both sides of a class or a module, which is counted as one step. [`FreshTable`] has all that the core signatures and some files
//! define, and answers what `sig_rules` asks of a project; what a class inherits it shares with the class behind it. How the files' texts are
//! read, and what an answer is used for, isn't known here.
#![tactic(auto)]

mod alias_table;
mod behind;
mod building;
mod built_tables;
mod core_tree;
mod declared_name;
mod definition_table;
mod fresh_table;
mod key_table;
mod lined_table;
mod name_list;
mod name_tables;
mod named_table;
mod order;
mod path_table;
mod shape_table;
mod sides;
mod standing_tables;
mod value_table;
mod value_text;

pub use building::build;
pub use fresh_table::FreshTable;
