//! Tests of texts, bit sets, maps, sets, copies, interners and scoped tables through public calls alone. Expected values
//! are worked out by hand from the rules, or come from the Rust crate's own tests and examples.
#![tactic(auto)]

#[cfg(test)]
mod tests;
