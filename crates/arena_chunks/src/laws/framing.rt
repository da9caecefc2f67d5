// How frames compose, and what stays.
ghost use Rattle.std.specs.Prelude.{◌≡◌, ℕ, ◌<◌, ◌↔◌, IsTrue, List, [], ◌∷◌, ◌++◌};
ghost use Rattle.std.specs.List.{AllByRecursion};
ghost use Rattle.arena_store.specs.Memory.{Memory, is_readable};
ghost use Rattle.arena_core.specs.Frame.{IsApart, AreAllApart, Frame, Stays};
ghost use Rattle.arena_store.specs.declared.block.Block.{Block};

/// Frames compose: one call after another, with other blocks of the caller's before or after them in the lists, and
/// with more blocks before and fewer after. A call on the last of some blocks and then one on the first are one on all.
/// A readable block that is apart from those that a call had stays, with its bytes, and is apart from those that the
/// call returns. Empty blocks don't matter.
pub fn frames()
    ensures reflexive { (memory : Memory) (blocks : List Block) → Frame memory memory blocks blocks }
    ensures then { (old mid new : Memory) (before between after : List Block) → Frame old mid before between
        → Frame mid new between after → Frame old new before after }
    ensures beside { (old new : Memory) (before after others : List Block) → Frame old new before after
        → Frame old new (before ++ others) (after ++ others) }
    ensures behind { (old new : Memory) (before after others : List Block) → Frame old new before after
        → Frame old new (others ++ before) (others ++ after) }
    ensures both { (old mid new : Memory) (first last first' last' : List Block) → Frame old mid last last'
        → Frame mid new first first' → Frame old new (first ++ last) (first' ++ last') }
    ensures weaken { (old new : Memory) (before more after fewer : List Block)
        → ((addr n : ℕ) → 0 < n → IsApart addr n more → IsApart addr n before)
        → ((addr n : ℕ) → 0 < n → IsApart addr n more → IsApart addr n after → IsApart addr n fewer)
        → Frame old new before after → Frame old new more fewer }
    ensures forget { (old new : Memory) (before after : List Block) → Frame old new before after
        → Frame old new before [] }
    ensures keeps { (old new : Memory) (before after : List Block) (b : Block) → Frame old new before after
        → IsTrue (is_readable old.state b) → IsApart b.addr b.size before → Stays old new after b }
    ensures keeps_all { (old new : Memory) (before after bs : List Block) → Frame old new before after
        → AllByRecursion (λ b. IsTrue (is_readable old.state b)) bs → AreAllApart bs before
        → AllByRecursion (Stays old new after) bs }
    ensures empty_before { (old new : Memory) (first last after : List Block) (b : Block) → b.size ≡ 0
        → Frame old new (first ++ b ∷ last) after ↔ Frame old new (first ++ last) after }
    ensures empty_after { (old new : Memory) (before first last : List Block) (b : Block) → b.size ≡ 0
        → Frame old new before (first ++ b ∷ last) ↔ Frame old new before (first ++ last) }
{}
