// The words after the program's name.
ghost use Rattle.std.specs.Prelude.{◌≡◌, IfOk};
ghost use Rattle.std.specs.IoError.{error_kind};
ghost use Rattle.arena_program.specs.Program.{words_of, status_without};

use arena_calls::Status;
use short_bytes::Bytes;
use std::alloc::{AllocError, Global};
use std::env::Args;
use std::io;

/// Returns all words but the first, which is the program's name.
pub fn words(alloc: Global, args: Args) -> Result<Vec<Bytes>, AllocError>
    ensures { IfOk result (λ words. words.items ≡ words_of args) }
{
    let mut left = args;
    let mut words = Vec::new(alloc);
    let _ = left.next();
    'words: loop {
        let Some(word) = left.next() else {
            return Ok(words);
        };
        let Ok(word) = Bytes::of(alloc, word.as_bytes()) else {
            return Err(AllocError);
        };
        words.push(word)?;
    }
}

/// Returns how the program ends where its words can't be read.
pub fn without_words(error: &io::Error) -> Status
    ensures { result ≡ status_without (error_kind error.now) }
{
    match error.kind() {
        io::ErrorKind::OutOfMemory => Status::OutOfMemory,
        // A word isn't text.
        _ => Status::Usage,
    }
}
