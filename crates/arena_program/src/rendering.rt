// Work whose outcomes the workers render.
//
// `run_scripts` and `lint_all` return outcomes, whose texts one thread would then make and all of which memory would
// hold at once. So the program gives `run_all` the same work, with the texts made by the workers.
ghost use Rattle.std.specs.Prelude.{◌≡◌, ◌<◌, ◌^◌, All, length, IfOk};
ghost use Rattle.std.specs.List.{enumerate_from};
ghost use Rattle.arena_workers.specs.Working.{IsServed};
ghost use Rattle.arena_program.specs.Rendering.{outcome_text, IsPrintout};

use crate::printout::{Printout, join};
use crate::rendered::{Render, Rendered};
use arena_chunks::{Allocator, ChunkSource, OutOfMemory};
use arena_lint::{Linting, lint_text};
use arena_pool::{AllocatorPool, ChunkMaker, PoolName};
use arena_script::Job;
use arena_workers::{NoGate, Work, run_all};
use lint_reports::{FileReport, Source};
use script_workers::Scripts;
use std::alloc::Global;
use std::sync::Wait;
use std::thread::Threads;

/// Work whose outcomes a worker can render.
pub trait RenderWork<C: ChunkSource>: Work<C>
where
    Self::Outcome: Render,
{
    ghost use Rattle.std.specs.Prelude.{◌≡◌};
    ghost use Rattle.arena_rules.specs.State.{used_bytes};
    ghost use Rattle.arena_pool.specs.Kinds.{IsOfKind};
    ghost use Rattle.arena_pool.specs.declared.kind.PoolKind.{PoolKind};
    ghost use Rattle.arena_program.specs.Rendering.{Renders};

    /// Does the work on a piece, as `run` does, and renders its outcome.
    fn render(
        &self,
        alloc: Global,
        a: &mut Allocator<C>,
        i: u32,
        piece: &Self::Piece,
    ) -> Rendered<Self::Outcome>
        requires unused { used_bytes a.old.memory.state ≡ 0 }
        requires accepted { Self.terms.accepts piece.now }
        ensures done { (outcome : Self.Outcome) × Self.terms.done i piece.now a.old a.new outcome
            × Renders Self.Outcome.text Self.terms.is_refused i outcome result }
        ensures kind { (kind : PoolKind) → IsOfKind kind a.old.memory.state → IsOfKind kind a.new.memory.state }
    {
        let outcome = self.run(alloc, a, i, piece);
        let refused = self.is_refused(&outcome);
        let mut bytes = Vec::new(alloc);
        match outcome.put(&mut bytes, i as u64) {
            Ok(()) => Rendered::Text { bytes, refused },
            Err(_) => Rendered::Unrendered(outcome),
        }
    }
}

impl<'a, C: ChunkSource, J: Job<C> + Sync> RenderWork<C> for Scripts<'a, J> {}

// The findings go straight into the text.
impl<'a, C: ChunkSource> RenderWork<C> for Linting<'a> {
    #[tactic(auto, using(arena_lint::proofs::AllLemmas::kind_kept))]
    fn render(
        &self,
        alloc: Global,
        a: &mut Allocator<C>,
        i: u32,
        piece: &Source<'a>,
    ) -> Rendered<FileReport> {
        match lint_text(alloc, a, piece.as_slice(), i as u64) {
            Ok((bytes, refused)) => Rendered::Text { bytes, refused },
            Err(report) => Rendered::Unrendered(report),
        }
    }
}

// Work of whose outcomes the workers leave the texts.
#[derive(Drop)]
struct Rendering<'a, W> {
    work: &'a W,
}

impl<'a, C: ChunkSource, W: RenderWork<C>> Work<C> for Rendering<'a, W>
where
    W::Outcome: Render,
{
    type Piece = W::Piece;

    type Outcome = Rendered<W::Outcome>;

    ghost use Rattle.arena_program.specs.Rendering.{rendered_terms};

    ghost terms = { rendered_terms W.Outcome.text W.terms };

    fn run(
        &self,
        alloc: Global,
        a: &mut Allocator<C>,
        i: u32,
        piece: &W::Piece,
    ) -> Rendered<W::Outcome> {
        self.work.render(alloc, a, i, piece)
    }

    fn unserved(&self, alloc: Global) -> Rendered<W::Outcome> {
        Rendered::Unrendered(self.work.unserved(alloc))
    }

    fn is_refused(&self, outcome: &Rendered<W::Outcome>) -> bool {
        match outcome {
            Rendered::Text { refused, .. } => *refused,
            Rendered::Unrendered(outcome) => self.work.is_refused(outcome),
        }
    }
}

/// Does each piece of work over the pool, on threads as `run_all` of `arena_workers` starts them, and returns the texts
/// of the outcomes in the order of the pieces, made by the workers. Waits at the pool's lock.
///
/// # Errors
///
/// Out of memory for the claims, the workers, their outcomes or the texts.
pub fn render_all<
    R: Threads + Wait + Sync,
    K: ChunkMaker + Drop + Send,
    L: PoolName + Send + Sync,
    W: RenderWork<K::Chunks> + Sync,
>(
    rt: &R,
    alloc: Global,
    pool: &AllocatorPool<K, L>,
    workers: u32,
    work: &W,
    pieces: Vec<W::Piece>,
) -> Result<Printout<K::Chunks>, OutOfMemory>
where
    W::Outcome: Render,
    W::Piece: Drop,
    requires some { 0 < workers }
    requires few { length pieces.items < 2 ^ 32 }
    requires accepted { All W.terms.accepts pieces.items }
    ensures { IfOk result (IsPrintout (IsServed K.Chunks.source L.kind W.terms) (outcome_text W.Outcome.text)
        (λ served. served.starved) (enumerate_from 0 pieces.items)) }
{
    let work = Rendering { work };
    let all = run_all(rt, alloc, pool, workers, &NoGate, &work, pieces.as_slice())?;
    join(alloc, all)
}
