// Public items of scripts, with their commands and replies, and of the engine.
use arena_chunks::{Allocator, ChunkSource, OutOfMemory};
use arena_script::{Engine, Job, run_script};
use script_rules::{Command, Ended, Numbers, Outcome, Replies, Script, ScriptReply};
use short_bytes::Bytes;
use std::alloc::Global;

fn makes(name: u32, capacity: u32, value: u64) -> [Command; 5] {
    [
        Command::MakeList { name },
        Command::MakeText { name },
        Command::MakeBits { name, capacity },
        Command::MakeMap { name },
        Command::MakeValue { name, value },
    ]
}

fn lists(name: u32, at: u32, value: u32, len: u32) -> [Command; 7] {
    [
        Command::Push { name, value },
        Command::Insert { name, at, value },
        Command::Pop { name },
        Command::Remove { name, at },
        Command::At { name, at },
        Command::Put { name, at, value },
        Command::Truncate { name, len },
    ]
}

fn texts(name: u32, byte: u8, bytes: Bytes) -> [Command; 3] {
    [
        Command::Byte { name, byte },
        Command::Front { name, byte },
        Command::Append { name, bytes },
    ]
}

fn sets(name: u32, bit: u32, other: u32) -> [Command; 5] {
    [
        Command::SetBit { name, bit },
        Command::UnsetBit { name, bit },
        Command::HasBit { name, bit },
        Command::Union { name, other },
        Command::Ones { name },
    ]
}

fn maps(name: u32, key: u32, value: u32) -> [Command; 3] {
    [
        Command::Bind { name, key, value },
        Command::Find { name, key },
        Command::Unbind { name, key },
    ]
}

fn others(name: u32, value: u64, other: u32) -> [Command; 6] {
    [
        Command::Load { name },
        Command::Store { name, value },
        Command::Len { name },
        Command::Show { name },
        Command::CopyTo { name, other },
        Command::DropName { name },
    ]
}

fn replies(bytes: Bytes, numbers: Numbers, printed: Bytes) -> [ScriptReply; 13] {
    [
        ScriptReply::Done,
        ScriptReply::Number(1u64),
        ScriptReply::Nothing,
        ScriptReply::Truth(true),
        ScriptReply::Bytes(bytes),
        ScriptReply::Numbers(numbers),
        ScriptReply::Printed(printed),
        ScriptReply::NoSuchName,
        ScriptReply::NameTaken,
        ScriptReply::WrongKind,
        ScriptReply::OutOfRange,
        ScriptReply::NotAscii,
        ScriptReply::CapacityOverflow,
    ]
}

fn endings() -> [Ended; 4] {
    [Ended::Done, Ended::Full, Ended::Refused, Ended::OutOfMemory]
}

fn came(replies: Vec<ScriptReply>, ended: Ended, used: u64) -> Outcome {
    Outcome {
        replies: Replies::from_vec(replies),
        ended,
        used,
    }
}

fn numbers(numbers: &Numbers) {
    return;
    let _: &[u64] = numbers.as_slice();
}

fn built() {
    let _: fn(Global) -> Script = Script::new;
    let _: fn(&mut Script, Command) -> Result<(), OutOfMemory> = Script::push;
    let _: fn(&Numbers) -> u64 = Numbers::len;
    let _: fn(Numbers) -> Vec<u64> = Numbers::into_vec;
    let _: fn(Replies) -> Vec<ScriptReply> = Replies::into_vec;
}

fn jobs<C: ChunkSource, J: Job<C>>(job: &J, alloc: Global, a: &mut Allocator<C>, script: &Script) {
    return;
    let _: Outcome = run_script(alloc, a, script);
    let _: Outcome = job.run(alloc, a, script);
}

fn engines<C: ChunkSource>(alloc: Global, a: &mut Allocator<C>, script: &Script) {
    jobs(&Engine, alloc, a, script);
}
