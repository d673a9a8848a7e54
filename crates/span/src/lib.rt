//! The kind of value span: a value is two numbers, and stands for every number from the first to the second.

#![tactic(auto)]

mod combine;
pub mod kind;
mod make;
mod narrow;
pub mod value;
