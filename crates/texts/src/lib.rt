//! Words for people: what a macro holds, and why one was refused. Each text has a type of its own that can be written
//! into any format, and the bytes that it writes are stated beside it. A word that is only a part of texts is a function,
//! since a type around each word would say no more; none stands in the crate of its type, which the cutter holds too.

#![tactic(auto)]

pub mod faults;
pub mod lines;
pub mod parts;
