// What crate `lookup` does on examples.
#![tactic(auto)]

#[cfg(test)]
mod lookups;
