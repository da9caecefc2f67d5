// What the definitions mean, in words and as facts.
mod chunks;
mod generator;
mod texts;

pub use chunks::doubling_runs;
pub use generator::{generated_calls, one_summary};
pub use texts::{one_reading, one_text, run_texts, some_reading};
