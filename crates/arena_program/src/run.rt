// Runs the scripts of the input.
ghost use Rattle.arena_chunks.specs.Source.{View};
ghost use Rattle.arena_calls.specs.Ends.{outside};
ghost use Rattle.arena_program.specs.Words.{IsWithin, IsLender};
ghost use Rattle.arena_program.specs.PoolEnds.{ScriptEnds};

use crate::parsing::parse_on_workers;
use crate::pools::run_task;
use crate::printout::print_all;
use crate::tasks::Task;
use arena_calls::{Input, Output, ReadErr, Status, read_all};
use arena_pool::ChunkMaker;
use arena_script::Job;
use arena_workers::NoGate;
use script_lines::{LinesErr, laws};
use script_workers::Starved;
use std::alloc::Global;
use std::sync::Wait;
use std::thread::Threads;

/// Reads all of the input as scripts, runs each as the task says, and writes their outcomes. `starved` gains what shows
/// that scripts were starved, once memory can no longer run out.
#[tactic(auto, using(crate::proofs::RunLemmas::whole_front))]
pub fn run_lines_of_scripts<
    I: Input,
    O: Output,
    R: Threads + Wait + Sync,
    K: ChunkMaker + Drop + Send,
    J: Job<K::Chunks> + Sync,
>(
    rt: &R,
    alloc: Global,
    task: Task,
    input: &mut I,
    output: &mut O,
    maker: K,
    job: &J,
    starved: &mut Vec<(u32, Starved<K::Chunks>)>,
) -> Status
    requires workers { IsWithin 1 64 task.workers }
    requires lender { IsLender task.lender }
    ensures { (arena : View) → ScriptEnds K.Chunks.source J.worked task.lender result
        (outside (I.left input.old) (I.faults input.old) (O.written output.old) (O.faults output.old) arena)
        (outside (I.left input.new) (I.faults input.new) (O.written output.new) (O.faults output.new) arena)
        starved.old.items starved.new.items }
{
    let bytes = match read_all(alloc, input) {
        Ok(bytes) => bytes,
        Err(ReadErr::Failed) => return Status::ReadFault,
        Err(ReadErr::TooLong) => return Status::InputTooLong,
        Err(ReadErr::OutOfMemory) => return Status::OutOfMemory,
    };
    let scripts = match parse_on_workers(rt, alloc, &NoGate, 0, task.workers, bytes.as_slice()) {
        Ok(scripts) => scripts,
        Err(LinesErr::BadLine(n)) => return Status::BadLine(n),
        Err(LinesErr::OutOfMemory) => return Status::OutOfMemory,
    };
    drop(bytes);
    laws::few();
    let Ok(printout) = run_task(rt, alloc, task, maker, job, scripts) else {
        return Status::OutOfMemory;
    };
    let Ok(texts) = printout.into_texts(starved) else {
        return Status::OutOfMemory;
    };
    print_all(output, texts.as_slice())
}
