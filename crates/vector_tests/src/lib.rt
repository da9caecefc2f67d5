//! Tests of vectors through public calls alone: worked examples, one call of each function, refusals, and the hints of
//! iterators. Expected values are worked out by hand from the rules, or are those of the Rust crate's tests.
#![tactic(auto)]

#[cfg(test)]
mod tests;
