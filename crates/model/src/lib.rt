// The rows that the calls on a probe work on, what each call answers and makes, and the laws of every list of calls.
#![tactic(auto)]

pub mod btf;
pub mod display;
pub mod laws;
pub mod refusal;
pub mod rows;
