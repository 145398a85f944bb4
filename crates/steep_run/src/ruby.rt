//! Ruby programs, and those among them that are small: each statement calls a method on a new object of a class.

mod callable;
mod calls;
mod class;
mod judging;
mod keywords;
mod reading;

pub use reading::faults;
