//! Trees of signatures: types, method types, declarations and their members, as RBS's `docs/syntax.md` has them.
//!
//! Copies are equal to what they were made of, `same_ty` and its like tell exactly whether two trees are the same, and
//! substitution puts types in place of type variables. Which names exist and what they mean isn't known here.
#![tactic(auto)]

mod comparison;
mod copies;
mod decl_copies;
mod decls;
mod memory;
mod names;
mod substitution;
mod texts;
mod types;

pub use comparison::{same_method, same_ty, same_tys};
pub use copies::{copy_method, copy_methods, copy_optional_ty, copy_ty, copy_tys};
pub use decl_copies::{copy_decl, copy_member, copy_ref, copy_type_params};
pub use decls::{AttrVar, Clause, Decl, Member, Ref, Side, Sign, TypeParam, VarScope};
pub use memory::both;
pub use names::{TypeName, copy_name, same_name};
pub use substitution::{other_variable_stays, subst, subst_method, variable_is_replaced};
pub use texts::{copy_optional_text, copy_texts, same_texts};
pub use types::{BlockType, Field, Keyword, MethodType, Param, Ty};
