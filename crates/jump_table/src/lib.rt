//! The jump table: where the functions that a domain provides begin.
//!
//! After Harbor's jump tables (Kumar et al., IPSN 2007), by which alone a domain is entered from another. The table
//! is seen as a map from a domain and the number of one of its entries to a unit of that domain's code. It has a
//! place for each entry of each domain, and takes no memory.
#![tactic(auto)]

mod table;

pub use table::JumpTable;
