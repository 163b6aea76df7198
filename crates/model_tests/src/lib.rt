// What crate `model` writes for people, on examples.
#![tactic(auto)]

#[cfg(test)]
mod refusals;
