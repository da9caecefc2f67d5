// What the definitions mean, in words and as facts. Each law is a function that does nothing: called in a body, it
// provides its facts there.
mod causes;
mod machine;
mod objects;
mod texts;

pub use causes::starved;
pub use machine::{prefixes, runs, steps};
pub use objects::{bits, entries};
pub use texts::{one_reading, one_text, run_bytes, some_reading};
