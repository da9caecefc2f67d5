// Proved callers of the checker of programs, of trees, and of the printer of reports.
ghost use Rattle.std.specs.Prelude.{◌≡◌, ◌^◌, ◌≤◌, [], ◌∷◌, ◌++◌, length, Ok, Err, IfOk, OnOk, IsTrue, IsFalse};
ghost use Rattle.arena_vec.specs.Vecs.{IsVecIn, vec_list};
ghost use Rattle.lint_reports.specs.Reports.{report_text};
ghost use Rattle.tree_rules.specs.Refusals.{TreeOf};
ghost use Rattle.tree_rules.specs.Trees.{Stmts, AreStmts, folded_stmts, folds_of_stmts, text};
ghost use Rattle.tree_rules.specs.declared.refused.Refused.{Refused};

use arena_chunks::{Allocator, ChunkSource};
use arena_items::laws::frame_law;
use arena_items::{AllocError, Item};
use arena_rules::OutOfMemory;
use arena_tree::{Tree, TreeErr, tree_law};
use arena_vec::Vec;
use lint_reports::{FileReport, put_report};
use short_bytes::Bytes;
use std::alloc::Global;
use tree_reader::refusal;
use tree_rules::laws::{one_reading, well_formed};

/// Returns whether a text is a program within the limits. If so, its tree is well formed.
pub fn is_program(src: &[u8]) -> bool
    ensures program { IsTrue result → (trees : Stmts) × TreeOf src.now (Ok trees) × AreStmts trees }
    ensures refused { IsFalse result → (r : Refused) × TreeOf src.now (Err r) }
{
    well_formed();
    match refusal(src) {
        Some(_refused) => false,
        None => true,
    }
}

/// Places the tree of a text, and returns the tree's text.
///
/// # Errors
///
/// Those of `Tree::parse`, and `OutOfMemory` if there is no memory for the text.
pub fn set_out<C: ChunkSource>(
    alloc: Global,
    a: &mut Allocator<C>,
    src: &[u8],
) -> Result<Bytes, TreeErr>
    requires { length src.now ≤ 2 ^ 24 }
    ensures { (trees : Stmts) → TreeOf src.now (Ok trees) → IfOk result (λ out. out ≡ text trees) }
{
    one_reading();
    let tree = Tree::parse(a, src)?;
    match tree.print(alloc, a) {
        Ok(out) => Ok(out),
        Err(_) => Err(TreeErr::OutOfMemory),
    }
}

/// Places the tree of a text, copies it to another arena, and returns the copy's text.
///
/// # Errors
///
/// Those of `Tree::parse` and `Tree::clone_in`, and `OutOfMemory` if there is no memory for the text.
pub fn set_out_copy<C: ChunkSource, D: ChunkSource>(
    alloc: Global,
    a: &mut Allocator<C>,
    b: &mut Allocator<D>,
    src: &[u8],
) -> Result<Bytes, TreeErr>
    requires { length src.now ≤ 2 ^ 24 }
    ensures { (trees : Stmts) → TreeOf src.now (Ok trees) → IfOk result (λ out. out ≡ text trees) }
{
    one_reading();
    let tree = Tree::parse(a, src)?;
    let copy = tree.clone_in(a, b)?;
    match copy.print(alloc, b) {
        Ok(out) => Ok(out),
        Err(_) => Err(TreeErr::OutOfMemory),
    }
}

/// Places the tree of a text and folds it. Returns the folded tree's text, and the number of nodes that were folded.
///
/// # Errors
///
/// Those of `set_out`.
pub fn set_out_folded<C: ChunkSource>(
    alloc: Global,
    a: &mut Allocator<C>,
    src: &[u8],
) -> Result<(Bytes, u64), TreeErr>
    requires { length src.now ≤ 2 ^ 24 }
    ensures { (trees : Stmts) → TreeOf src.now (Ok trees)
        → IfOk result (λ r. (r.0 ≡ text (folded_stmts trees)) × (r.1 ≡ folds_of_stmts trees)) }
{
    one_reading();
    let mut tree = Tree::parse(a, src)?;
    let folds = tree.fold(a);
    match tree.print(alloc, a) {
        Ok(out) => Ok((out, folds)),
        Err(_) => Err(TreeErr::OutOfMemory),
    }
}

// The error of a list that can't be placed, as one of a tree.
fn not_placed(e: AllocError) -> TreeErr {
    match e {
        AllocError::AllocErr { refused } => TreeErr::AllocErr { refused },
        AllocError::CapacityOverflow | AllocError::OutOfMemory => TreeErr::OutOfMemory,
    }
}

/// Places the tree of a text and a list of one value, and folds the tree. Returns the folded tree's text, and the
/// list, which is unchanged.
///
/// # Errors
///
/// Those of `set_out`, and the error of the list's placement.
pub fn set_out_beside<T: Item, C: ChunkSource>(
    alloc: Global,
    a: &mut Allocator<C>,
    src: &[u8],
    value: T,
) -> Result<(Bytes, Vec<T>), TreeErr>
    requires short { length src.now ≤ 2 ^ 24 }
    requires small { T.SIZE ≤ 2 ^ 24 }
    ensures tree { (trees : Stmts) → TreeOf src.now (Ok trees) → IfOk result (λ r. r.0 ≡ text (folded_stmts trees)) }
    ensures list { IfOk result (λ r. IsVecIn T.Item a.new.memory r.1 × (vec_list T.Item a.new.memory r.1 ≡ value ∷ [])) }
{
    one_reading();
    tree_law();
    frame_law::<Vec<T>>();
    let mut tree = Tree::parse(a, src)?;
    let list = match Vec::from_value_in(value, a) {
        Ok(list) => list,
        Err(e) => return Err(not_placed(e)),
    };
    tree.fold(a);
    match tree.print(alloc, a) {
        Ok(out) => Ok((out, list)),
        Err(_) => Err(TreeErr::OutOfMemory),
    }
}

/// Appends the lines of two reports, as those of sources 0 and 1.
///
/// # Errors
///
/// Out of memory for the text.
pub fn put_two(
    out: &mut std::vec::Vec<u8>,
    a: &FileReport,
    b: &FileReport,
) -> Result<(), OutOfMemory>
    ensures { OnOk result (out.new.items ≡ (out.old.items ++ report_text 0 a.now) ++ report_text 1 b.now) }
{
    put_report(out, 0, a)?;
    put_report(out, 1, b)
}
