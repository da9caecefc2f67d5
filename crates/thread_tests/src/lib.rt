//! Tests of scripts, on the plain machine, on the engine and on workers over pools, and of pools, claims and shared
//! arenas, through public calls alone: worked examples, and many threads over one pool. Expected values follow from the
//! rules; with many threads, only what holds in any order is checked. `uses` and `two` have proved callers, and `worked`
//! has numbers that the definitions give.
#![tactic(auto)]

#[cfg(test)]
mod tests;
mod two;
mod uses;
mod worked;

pub use two::run_two;
pub use uses::is_refused;
pub use worked::worked_script;
