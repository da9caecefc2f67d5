//! Tests of the small language of `example_language` and of the parser `example_parser`, through their public calls alone.
//! Expected values are worked out by hand.
#![tactic(auto)]

#[cfg(test)]
mod parser;
#[cfg(test)]
mod tests;
