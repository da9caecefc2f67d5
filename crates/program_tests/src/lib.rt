//! Tests of the program through its arguments: calls and how they end, scripts and sources. Expected values follow from
//! the rules.
#![tactic(auto)]

#[cfg(test)]
mod tests;
