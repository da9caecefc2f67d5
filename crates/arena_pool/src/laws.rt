// Laws of a pool's events, of kinds of arenas, of claims and of owners. Each is a function that does nothing: a call in
// a body makes its facts available there.
ghost use Rattle.std.specs.Prelude.{◌≡◌, ℕ, ◌+◌, ◌-◌, ◌^◌, ◌<◌, ◌≤◌, ◌⊎◌, [], ◌∷◌, length, map, take, slice_index, false, IsTrue, if◌then◌else◌, List, Option, None, Some, Result, Ok, Err, IsOk};
ghost use mathlib.Core.Option.{some};
ghost use lib.ListN.{get_elem?};
ghost use Rattle.atomic_table.specs.Table.{State as TableState};
ghost use Rattle.arena_rules.specs.State.{State, IsValid, allocated_bytes};
ghost use Rattle.arena_rules.specs.Moves.{reset, Resizing};
ghost use Rattle.arena_chunks.specs.Memory.{Memory};
ghost use Rattle.arena_chunks.specs.Source.{View};
ghost use Rattle.arena_chunks.specs.Frame.{Frame};
ghost use Rattle.arena_chunks.specs.Answers.{Answer};
ghost use Rattle.arena_chunks.specs.BlockCalls.{PlacesBlock, ResizesBlock, GivesBack, WritesBlock};
ghost use Rattle.arena_chunks.specs.Resizes.{NoneReadable};
ghost use Rattle.arena_store.specs.declared.block.Block.{Block};
ghost use Rattle.arena_items.specs.Placing.{Answers, PlacesArray};
ghost use Rattle.arena_items.specs.declared.boxes.Box.{Box};
ghost use Rattle.arena_items.specs.declared.slices.BoxSlice.{BoxSlice};
ghost use Rattle.arena_items.specs.declared.placing.ItemErr.{ItemErr};
ghost use Rattle.arena_pool.specs.Kinds.{is_fixed, IsOfKind, HasId, IsUnused, IsWithin, reset_view};
ghost use Rattle.arena_pool.specs.Pool.{Pool, Pooled, IsPool, IsPooled, Gets, can_take, most_lent, store, put, give_up};
ghost use Rattle.arena_pool.specs.Claiming.{has, claimers, IsKept, IsOnce, ClaimedOnce, Happen};
ghost use Rattle.arena_pool.specs.Sharing.{Shares, FreedOnce};
ghost use Rattle.arena_pool.specs.declared.claims.rule.ClaimView.{ClaimView};
ghost use Rattle.arena_pool.specs.declared.owners.rule.OwnerView.{OwnerView};
ghost use Rattle.arena_pool.specs.declared.kind.PoolKind.{PoolKind};
ghost use Rattle.arena_pool.specs.declared.kind.PoolKind.TheVariants.{Standard};
ghost use Rattle.arena_pool.specs.declared.book.PoolErr.{PoolErr};
ghost use Rattle.arena_pool.specs.declared.book.PoolErr.TheVariants.{PoolEmpty, Limit, OutOfMemory};

/// Each event keeps what every book keeps: each arena that was made is stored, lent or given up, and each stored one is
/// of the pool's kind, has no bytes in use, and is within the limit. So is each arena when it is lent. A get that lends
/// an arena raises the number lent by 1; the number given up, the kind and the limit are unchanged.
pub fn events()
    ensures counted { (p q : Pool) (lent : Pooled) → Gets p (Ok lent) q
        → (q.lent ≡ p.lent + 1) × (q.kind ≡ p.kind) × (q.limit ≡ p.limit) × (q.given_up ≡ p.given_up) }
    ensures got { (p q : Pool) (answer : Result Pooled PoolErr) → IsPool p → Gets p answer q → IsPool q }
    ensures lent { (p q : Pool) (lent : Pooled) → IsPool p → Gets p (Ok lent) q → IsPooled p.kind p.limit lent }
    ensures put { (p : Pool) (arena : View) (id : Option ℕ) → IsPool p → 0 < p.lent
        → IsValid arena.memory.state → IsOfKind p.kind arena.memory.state → HasId p.kind id
        → IsPool (put p arena id) }
    ensures given_up { (p : Pool) → IsPool p → 0 < p.lent → IsPool (give_up p) }
{}

/// When a get is refused: if none is stored, by a fixed pool with `PoolEmpty`, and by a standard pool that has made
/// 2^64 - 1 with `Limit`. Otherwise it lends an arena, or is out of memory for a new one. Under the lock it waits
/// exactly if it would be refused in one of these two ways, or if `MOST_LENT` arenas are lent.
pub fn answers()
    ensures stored { (p q : Pool) (answer : Result Pooled PoolErr) → Gets p answer q → 0 < length p.stack
        → IsOk answer }
    ensures empty { (p q : Pool) (answer : Result Pooled PoolErr) → Gets p answer q → p.stack ≡ []
        → IsTrue (is_fixed p.kind) → answer ≡ Err PoolEmpty }
    ensures limit { (p q : Pool) (answer : Result Pooled PoolErr) → Gets p answer q → p.stack ≡ []
        → p.kind ≡ Standard → p.made ≡ 2 ^ 64 - 1 → answer ≡ Err Limit }
    ensures goes { (p q : Pool) (e : PoolErr) → Gets p (Err e) q → IsTrue (can_take p) → e ≡ OutOfMemory }
    ensures waits { (p q : Pool) (answer : Result Pooled PoolErr) → Gets p answer q → can_take p ≡ false
        → p.lent < most_lent → (answer ≡ Err PoolEmpty) ⊎ (answer ≡ Err Limit) }
{}

/// What a put does. An arena that has no more bytes than the limit after its reset becomes the newest stored one, and
/// so does every arena if there is no limit, as in a fixed pool. An arena that has more is given up. Either way one
/// arena less is lent, and the kind and the limit are unchanged.
pub fn puts()
    ensures kept { (p : Pool) (arena : View) (id : Option ℕ) (limit : ℕ) → p.limit ≡ Some limit
        → allocated_bytes (reset arena.memory.state) ≤ limit → put p arena id ≡ store p (reset_view arena, id) }
    ensures gone { (p : Pool) (arena : View) (id : Option ℕ) (limit : ℕ) → p.limit ≡ Some limit
        → limit < allocated_bytes (reset arena.memory.state) → put p arena id ≡ give_up p }
    ensures unlimited { (p : Pool) (arena : View) (id : Option ℕ) → p.limit ≡ None
        → put p arena id ≡ store p (reset_view arena, id) }
    ensures fixed { (p : Pool) (arena : View) (id : Option ℕ) → IsPool p → IsTrue (is_fixed p.kind)
        → put p arena id ≡ store p (reset_view arena, id) }
    ensures counted { (p : Pool) (arena : View) (id : Option ℕ) → let q = put p arena id in
        (q.lent ≡ p.lent - 1) × (q.kind ≡ p.kind) × (q.limit ≡ p.limit) }
{}

/// The arena that was put last, if it is within the limit, is lent next, reset and with its id.
pub fn newest()
    ensures { (p q : Pool) (arena : View) (id : Option ℕ) (lent : Pooled) → 0 < p.lent
        → IsWithin p.limit (reset_view arena)
        → Gets (put p arena id) (Ok lent) q → (lent ≡ (reset_view arena, id)) × (q ≡ p) }
{}

/// Calls keep the kind of an arena: each call with a frame, each call on blocks, whatever it returns, and a reset.
#[tactic(auto, using(crate::proofs::Layers::kind_laws, crate::proofs::Layers::frame_of_kind, crate::proofs::Layers::reset_of_kind))]
pub fn kinds()
    ensures frame { (kind : PoolKind) (old new : Memory) (before after : List Block)
        → Frame old new before after → IsOfKind kind old.state → IsOfKind kind new.state }
    ensures placed { (kind : PoolKind) (old new : View) (size align : ℕ) (answer : Answer)
        → PlacesBlock old new size align answer
        → IsOfKind kind old.memory.state → IsOfKind kind new.memory.state }
    ensures resized { (kind : PoolKind) (way : Resizing) (old new : View) (block : Block) (size align : ℕ)
        (answer : Answer) → ResizesBlock way old new block size align answer
        → IsOfKind kind old.memory.state → IsOfKind kind new.memory.state }
    ensures given_back { (kind : PoolKind) (old new : Memory) (block : Block) → GivesBack old new block
        → IsOfKind kind old.state → IsOfKind kind new.state }
    ensures written { (kind : PoolKind) (old new : Memory) (block : Block) (at : ℕ) (list : List ℕ)
        → WritesBlock old new block at list → IsOfKind kind old.state → IsOfKind kind new.state }
    ensures reset { (kind : PoolKind) (state : State) → IsValid state → IsOfKind kind state
        → IsOfKind kind (reset state) }
{}

/// Calls that place values keep the kind of an arena: the premises are the fields `placed` of `PlacesBox` and
/// `PlacesSlice`.
#[tactic(auto, using(crate::proofs::Layers::kind_laws))]
pub fn kinds_by_values<T>()
    ensures boxed { (kind : PoolKind) (old new : View) (size align : ℕ) (result : Result (Box T) ItemErr)
        → Answers (λ b. b.block) result (PlacesBlock old new size align)
        → IsOfKind kind old.memory.state → IsOfKind kind new.memory.state }
    ensures slice { (kind : PoolKind) (old new : View) (size align n : ℕ) (result : Result (BoxSlice T) ItemErr)
        → Answers (λ s. s.block) result (PlacesArray old new size align n)
        → IsOfKind kind old.memory.state → IsOfKind kind new.memory.state }
{}

/// If an arena has no bytes in use, no non-empty block of it is readable, no matter which borrower placed the block.
#[tactic(auto, using(arena_chunks::proofs::Layers::unused_unreadable))]
pub fn unused()
    ensures { (kind : PoolKind) (arena : View) → IsUnused kind arena → NoneReadable arena.memory.state }
{}

/// Each word is claimed once. In each state that the rule of claims allows, a word is the number of seats that claim
/// it, no two seats claim the same word, and none claims a word twice. In a sequence of swaps, by any threads, each
/// finds 1 if an earlier one was of its word, and otherwise the word's first value: of all swaps of a word that was 0,
/// the first alone finds 0.
#[tactic(auto, using(crate::proofs::Layers::claim_laws))]
pub fn claimed_once()
    ensures counted { (n : ℕ) (words : List ℕ) (views : List ClaimView) → IsKept n words views
        → (w : ℕ) → slice_index words w ≡ claimers w views }
    ensures one { (n : ℕ) (words : List ℕ) (views : List ClaimView) → IsKept n words views
        → ClaimedOnce views }
    ensures once { (n : ℕ) (words : List ℕ) (views : List ClaimView) → IsKept n words views
        → (i : ℕ) (v : ClaimView) → get_elem? views i ≡ some v → IsOnce v }
    ensures first { (words : List ℕ) (swaps : List (ℕ × ℕ)) → Happen words swaps
        → (i w found : ℕ) → w < length words → get_elem? swaps i ≡ some (w, found)
        → found ≡ (if has w (map (λ s. s.0) (take i swaps)) then 1 else slice_index words w) }
{}

/// A shared arena is freed at most once, and of two owners that give up, exactly the later one frees it. In each state
/// that the rule of two owners allows, at most one of them claims word 0, at most one claims word 1, and none claims
/// both. An owner that hasn't given up finds word 0 taken exactly if the other has given up; then word 1 is free, and
/// the arena is in the slot.
pub fn freed_once<X>()
    ensures { (a : X) (s : TableState (Option X) (OwnerView X)) → Shares a s → length s.views ≡ 2
        → FreedOnce a s }
{}
