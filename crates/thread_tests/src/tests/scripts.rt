// Tests of scripts on the plain machine and on the engine.
mod cutting;
mod engine;
mod lines;
mod tables;

use super::holds;
use plain_scripts::PlainScripts;
use script_lines::{parse_scripts, put_outcome};
use script_rules::{Ended, Outcome, Replies, Script};
use std::alloc::Global;
use std::process::Abort;
use std::test::Fail;
use tables::{TABLES, Table};

fn script_of(alloc: Global, text: &str) -> Result<Script, Fail> {
    let mut scripts = parse_scripts(alloc, text.as_bytes())?;
    Ok(scripts.pop().ok_or("no script")?)
}

// The test fails unless the replies are those of the table.
fn told(rt: &impl Abort, alloc: Global, table: &Table, replies: Replies) -> Result<(), Fail> {
    let outcome = Outcome {
        replies,
        ended: Ended::Done,
        used: 0,
    };
    let mut text = Vec::new(alloc);
    put_outcome(&mut text, 0, &outcome)?;
    holds(rt, text.as_slice() == table.text.as_bytes(), table.script);
    Ok(())
}

#[test]
fn each_command_has_its_reply_and_its_cost(rt: HostRuntime) -> Result<(), Fail> {
    for table in TABLES {
        let script = script_of(rt.alloc(), table.script)?;
        let run = PlainScripts::run(rt.alloc(), &script)?;
        holds(&rt, run.costs.as_slice() == table.costs, table.script);
        told(&rt, rt.alloc(), table, run.replies)?;
    }
    Ok(())
}
