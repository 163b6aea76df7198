// A kernel symbol list: sources of its lines, the fields of a line, and the address in a field.
#![tactic(auto)]

pub mod address;
pub mod choice;
pub mod digits;
pub mod ends;
pub mod fields;
pub mod joined;
pub mod laws;
pub mod source;
pub mod text;
