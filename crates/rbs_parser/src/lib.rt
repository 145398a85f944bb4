//! The reading of RBS signatures.
//!
//! [`parse`] reads the declarations of a text, by the grammar that `rbs_grammar` has as a value. It promises that the tree is the one
//! that the text's tokens spell, and that a refusal stands at the first place where the text can't go on. What the declarations mean
//! isn't known here.
#![tactic(auto)]

mod cursor;
mod declarations;
mod functions;
mod gathered;
mod lists;
mod members;
mod names;
mod refusal;
mod sets;
mod types;
mod values;
mod whole;

use cursor::Cursor;
use refusal::Refusal;
use sets::Set;
pub use whole::{ParseFault, parse};
