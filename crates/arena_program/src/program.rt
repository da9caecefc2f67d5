// The program: what it prints and returns.
ghost use Rattle.std.specs.Prelude.{◌≡◌, []};
ghost use Rattle.std.specs.Process.{exit_status};
ghost use Rattle.arena_rules.specs.Creation.{empty_state};
ghost use Rattle.arena_chunks.specs.Source.{view};
ghost use Rattle.arena_chunks.specs.Creating.{uncounted_memory};
ghost use Rattle.arena_calls.specs.Budget.{budget};
ghost use Rattle.arena_calls.specs.Ends.{outside, code_of};
ghost use Rattle.arena_calls.specs.Messages.{Explains};
ghost use Rattle.arena_program.specs.Program.{maker_budget, usage, Serves, Answers};
ghost use Rattle.arena_calls.specs.declared.status.Status.{Status};

use crate::arguments::{without_words, words};
use crate::budget::BudgetedMaker;
use crate::whole::arena_main;
use arena_calls::{Budgeted, Input, Output, Status, exit_with, is_one_word, print};
use arena_chunks::Arena;
use arena_script::Job;
use script_workers::Starved;
use short_bytes::Bytes;
use std::alloc::Global;
use std::env::Args;
use std::io;
use std::process::ExitCode;
use std::sync::Wait;
use std::thread::Threads;

const USAGE: &[u8] =
    b"usage: arena_run calls | gen START COUNT | scripts WORKERS [fixed BYTES ARENAS | keep BYTES] | lint WORKERS\n";

const HELP: &str = "\
Runs calls on a bump arena, or scripts on arenas of a pool, and prints their replies; or lints sources.

usage: arena_run calls              reads a call from each line of standard input
       arena_run gen START COUNT    runs COUNT pseudo-random calls from the seed START, and prints a summary
       arena_run scripts WORKERS    reads scripts, and runs them on 1 to 64 threads
       arena_run scripts WORKERS fixed BYTES ARENAS
                                    each on one of ARENAS arenas of BYTES bytes
       arena_run scripts WORKERS keep BYTES
                                    keeps an arena for reuse only if it has at most BYTES bytes
       arena_run lint WORKERS       reads sources, and reports what 1 to 64 threads find in them
       arena_run --help             prints this text
       arena_run --version          prints the version

calls: alloc NAME SIZE ALIGN FILL
       grow NAME SIZE ALIGN FILL
       shrink NAME SIZE ALIGN
       dealloc NAME
       write NAME AT HEX      HEX is two digits for each byte, or - for none
       read NAME
       mark NAME              saves a checkpoint
       back NAME              rolls back to it, freeing what was placed since
       reset
       used
       allocated

a script: script, and then its commands
       list N, text N, bits N CAPACITY, map N, value N X          make an object
       push N V, insert N I V, pop N, remove N I, at N I, put N I V, truncate N LEN
       byte N B, front N B, append N HEX
       set N B, unset N B, has N B, union N M, ones N
       bind N KEY V, find N KEY, unbind N KEY
       load N, store N X
       len N, show N, copy N M, drop N

sources: separated by lines %%, each gets a report
       let NAME = EXPR;  EXPR;  { .. }                            its statements
";

const VERSION: &str = "arena_run 0.1.0\n";

// Does what the words ask for.
fn serve<
    C: Budgeted,
    I: Input,
    O: Output,
    R: Threads + Wait + Sync,
    K: BudgetedMaker + Drop + Send,
    J: Job<K::Chunks> + Sync,
>(
    rt: &R,
    alloc: Global,
    words: &[Bytes],
    arena: &mut Arena<1>,
    chunks: &mut C,
    input: &mut I,
    output: &mut O,
    maker: K,
    job: &J,
    starved: &mut Vec<(u32, Starved<K::Chunks>)>,
) -> Status
    ensures { Serves HELP.now VERSION.now K.Chunks.source J.worked words.now result
        (outside (I.left input.old) (I.faults input.old) (O.written output.old) (O.faults output.old)
        (view arena.old (C.source chunks.old)))
        (outside (I.left input.new) (I.faults input.new) (O.written output.new) (O.faults output.new)
        (view arena.new (C.source chunks.new)))
        starved.old.items starved.new.items }
{
    if is_one_word(words, b"--help") {
        return print(output, HELP.as_bytes());
    }
    if is_one_word(words, b"--version") {
        return print(output, VERSION.as_bytes());
    }
    arena_main(
        rt, alloc, words, arena, chunks, input, output, maker, job, starved,
    )
}

/// The program: does what its words ask for, over a new arena with a budget of 1 GiB, or, for scripts and sources, over
/// arenas with 64 MiB each; `job` runs the scripts. If it fails, it writes the reason to `messages`. Returns the exit
/// status, which is the same if `messages` can't be written. `args` begins with the program's name.
pub fn run_program<
    C: Budgeted,
    I: Input,
    O: Output,
    E: Output,
    R: Threads + Wait + Sync,
    K: BudgetedMaker + Drop + Send,
    J: Job<K::Chunks> + Sync,
>(
    rt: &R,
    alloc: Global,
    args: io::Result<Args>,
    arena: &mut Arena<1>,
    chunks: &mut C,
    input: &mut I,
    output: &mut O,
    messages: &mut E,
    maker: K,
    job: &J,
    starved: &mut Vec<(u32, Starved<K::Chunks>)>,
) -> ExitCode
    requires new { arena.old ≡ uncounted_memory (empty_state 1) [] }
    requires budget { C.left chunks.old ≡ budget }
    requires unrefused { (C.source chunks.old).refusals ≡ 0 }
    requires budgets { K.each maker ≡ maker_budget }
    requires none { starved.old.items ≡ [] }
    ensures { (status : Status) × (exit_status result ≡ code_of status)
        × Answers HELP.now VERSION.now K.Chunks.source J.worked args status
        (outside (I.left input.old) (I.faults input.old) (O.written output.old) (O.faults output.old)
        (view arena.old (C.source chunks.old)))
        (outside (I.left input.new) (I.faults input.new) (O.written output.new) (O.faults output.new)
        (view arena.new (C.source chunks.new)))
        starved.old.items starved.new.items
        × Explains usage status (E.written messages.old) (E.faults messages.old) (E.written messages.new) (E.faults messages.new) }
{
    let status = match args {
        Ok(args) => match words(alloc, args) {
            Ok(words) => {
                let words = words.as_slice();
                serve(
                    rt, alloc, words, arena, chunks, input, output, maker, job, starved,
                )
            }
            Err(_) => Status::OutOfMemory,
        },
        Err(error) => without_words(&error),
    };
    exit_with(messages, &status, USAGE)
}
