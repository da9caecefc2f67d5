//! Lines of calls in, lines of replies out: what the program does for the words `calls` and `gen`.
#![tactic(auto)]

mod arguments;
mod budget;
mod generator;
pub mod laws;
mod lines;
mod messages;
mod printing;
mod replies;
mod status;
mod streams;
mod whole_run;

pub use arguments::is_one_word;
pub use budget::{Budgeted, program_chunks};
pub use generator::{Draws, Tally, put_summary, room_for_text, run_generated};
pub use line_parts::LinesErr;
pub use lines::parse_calls;
pub use messages::exit_with;
pub use printing::print;
pub use replies::Text;
pub use status::Status;
pub use streams::{
    Failed, Input, MemoryInput, MemoryOutput, Output, ReadErr, StdInput, StdOutput, read_all,
    write_all,
};
pub use whole_run::{arena_calls, run_input};
