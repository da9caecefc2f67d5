// A run of calls from one number.
mod calls;
mod run;
mod summary;
mod tally;

pub use calls::Draws;
pub use run::run_generated;
pub use summary::{put_summary, room_for_text};
pub use tally::Tally;
