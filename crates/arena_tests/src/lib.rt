//! Tests of places, of the arena and of values in it, through public calls alone: worked examples of the rules, byte
//! forms, refusals, and the cases of the Rust crate's tests. Expected values are worked out by hand from the rules.
#![tactic(auto)]

#[cfg(test)]
mod tests;
