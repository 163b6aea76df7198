// What a kernel symbol list says of names.
#![tactic(auto)]

pub mod choice;
pub mod hashed;
mod index;
pub mod indexed;
pub mod laws;
pub mod names;
pub mod rows;
pub mod scan;
pub mod sighting;
