//! What the types of signatures mean: full names, variables in place of the names of type parameters, and `untyped` for what is unknown.
//!
//! What a name stands for is asked of [`sig_rules::Names`]: how declarations are kept isn't known here. Type parameters stay variables, and
//! types are put in their place further up.
#![tactic(auto)]

mod full_names;
mod meaning;
mod named;
mod standing;

pub use full_names::{first_params, fitted, members, param_names, sort, sort_of, type_params};
pub use meaning::{meant, meant_method};
pub use standing::{alias, value};
