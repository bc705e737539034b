//! What every crate of the store may name: want of memory, a list that a value owns, and copies of owned values.
//! It stands on std alone. A list is seen by clauses as a list, and a copy is equal to what was copied.
#![tactic(auto)]

mod duplicate;
mod listed;
mod memory;

pub use duplicate::Duplicate;
pub use listed::Listed;
pub use memory::NoMemory;
