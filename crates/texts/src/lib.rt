// Addresses as text for people.
#![tactic(auto)]

pub mod hex;
