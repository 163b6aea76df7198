// What crate `kallsyms` does on examples.
#![tactic(auto)]

#[cfg(test)]
mod addresses;
#[cfg(test)]
mod fields;
#[cfg(test)]
mod sources;
#[cfg(test)]
mod texts;
