// Tests of many texts and many scopes: they take tolerable time.
use super::kept::{Nest, Texts};
use crate::tests::{limited, same_at};
use arena_chunks::MemoryChunks;
use std::alloc::Global;
use std::process::Abort;
use std::test::Fail;

fn numbered(rt: &impl Abort, alloc: Global, texts: &mut Texts<MemoryChunks>) -> Result<(), Fail> {
    for n in 0..1_000_000 {
        let text = format!(in alloc; "name {n}")?;
        same_at(rt, n, texts.intern(text.as_str()), Ok(n));
    }
    same_at(rt, 0, texts.len(), 1_000_000);
    Ok(())
}

#[test]
fn a_million_texts(rt: HostRuntime) -> Result<(), Fail> {
    let mut texts = Texts::new(limited(rt.alloc(), 1 << 31));
    numbered(&rt, rt.alloc(), &mut texts)?;
    numbered(&rt, rt.alloc(), &mut texts)?;
    same_at(&rt, 0, texts.text(999_999), Some("name 999999"));
    Ok(())
}

// One id is shadowed in each scope.
#[test]
fn ten_thousand_scopes(rt: HostRuntime) {
    let mut nest = Nest::new(limited(rt.alloc(), 1 << 31));
    for n in 0..10_000u32 {
        same_at(&rt, n, nest.define(7, n), Ok(true));
        same_at(&rt, n, nest.enter(), Ok(()));
    }
    for k in 0..10_000u32 {
        let n = 9_999 - k;
        same_at(&rt, n, nest.leave(), true);
        same_at(&rt, n, nest.lookup(7), Some(n));
    }
}
