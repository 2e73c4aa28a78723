// The library for Rust and C: the calls of `index`, `batch` and `codes` under plain names, with numbers for codes,
// kinds and slots, and the lent arrays as parameters of their own: they are the C interface.
#![tactic(auto)]

pub mod batches;
pub mod changing;
pub mod lines;
pub mod looking;
pub mod replies;
pub mod types;
