//! What the declarations of a class, a module or an interface give by themselves: methods and variables, one by one.
//!
//! Each comes with the types that it means, in which the arguments of the class, the module or the interface stand for its type
//! parameters. What it inherits, and which of two methods of a name counts, isn't known here.
#![tactic(auto)]

mod attributes;
mod giving;
mod methods;
mod overloads;
mod scope;
mod variables;
mod visibility;

pub use giving::{may_give_methods, may_give_variables};
pub use methods::given_methods;
pub use variables::given_variables;
