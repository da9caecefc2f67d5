// What is true of a block after it was placed, resized, written or given back.
ghost use Rattle.std.specs.Prelude.{◌≡◌, ℕ, ◌+◌, ◌≤◌, min, IsTrue, List, [], ◌∷◌, length, ◌++◌};
ghost use Rattle.std.specs.List.{AllByRecursion};
ghost use Rattle.arena_rules.specs.Rounding.{is_layout};
ghost use Rattle.arena_rules.specs.State.{IsValid};
ghost use Rattle.arena_rules.specs.Lists.{splice};
ghost use Rattle.arena_rules.specs.Moves.{Resizing};
ghost use Rattle.arena_rules.specs.Blocks.{IsBlock};
ghost use Rattle.arena_store.specs.Memory.{Memory, is_readable, image, bytes_from};
ghost use Rattle.arena_store.specs.Source.{View, Source, view};
ghost use Rattle.arena_core.specs.Answers.{Answer};
ghost use Rattle.arena_core.specs.Answers.Answer.{Placed};
ghost use Rattle.arena_core.specs.Frame.{ArePairwiseApart, IsApart, Frame};
ghost use Rattle.arena_core.specs.BlockCalls.{place_of, PlacesBlock, ResizesBlock, ShrinksBlock, GivesBack, WritesBlock, EditsBlock};
ghost use Rattle.arena_store.specs.declared.block.Block.{Block};

/// A new block is apart from all readable blocks. It is one of the arena's: its layout is valid, it is aligned, and it
/// is in use or empty. Placing a block and then writing in it is placing it, with those bytes.
pub fn placed()
    ensures apart { (old new : View) (size align : ℕ) (b : Block) (bs : List Block)
        → PlacesBlock old new size align (Placed b)
        → AllByRecursion (λ c. IsTrue (is_readable old.memory.state c)) bs → IsApart b.addr b.size bs }
    ensures pairwise { (old new : View) (size align : ℕ) (b : Block) (bs : List Block)
        → PlacesBlock old new size align (Placed b)
        → AllByRecursion (λ c. IsTrue (is_readable old.memory.state c)) bs
        → ArePairwiseApart bs → ArePairwiseApart (b ∷ bs) }
    ensures is_block { (old new : View) (size align : ℕ) (b : Block) → IsTrue (is_layout size align)
        → PlacesBlock old new size align (Placed b) → IsBlock new.memory.state (place_of b) }
    ensures written { (old mid : View) (new : Memory) (size align : ℕ) (b : Block) (at : ℕ) (list : List ℕ)
        → PlacesBlock old mid size align (Placed b) → WritesBlock mid.memory new b at list
        → PlacesBlock old (view new mid.source) size align (Placed b) }
{}

/// A resize of one of the arena's blocks returns one of the arena's blocks. Resizing a block and then writing after the
/// bytes that it kept is resizing it, with those bytes. A shrink that doesn't raise the alignment is never refused and
/// never runs out of memory.
pub fn resized()
    ensures is_block { (way : Resizing) (old new : View) (block b : Block) (size align : ℕ)
        → IsTrue (is_layout size align)
        → ResizesBlock way old new block size align (Placed b) → IsBlock old.memory.state (place_of block)
        → IsBlock new.memory.state (place_of b) }
    ensures written { (way : Resizing) (old mid : View) (new : Memory) (block b : Block)
        (size align at : ℕ) (list : List ℕ)
        → ResizesBlock way old mid block size align (Placed b) → WritesBlock mid.memory new b at list
        → min block.size size ≤ at → ResizesBlock way old (view new mid.source) block size align (Placed b) }
    ensures shrunk { (old new : View) (block : Block) (size align : ℕ) (answer : Answer) → align ≤ block.align
        → ShrinksBlock old new block size align answer → (b : Block) × (answer ≡ Placed b) }
{}

/// After a write a block's bytes are the old ones with the list in place of the range, and the same blocks are
/// readable. A list as long as the block is all of its bytes. Two adjacent writes are one, and a write of no bytes
/// changes nothing. A change of bytes by a function writes the function's value.
#[tactic(auto, using(crate::proofs::Layers::layer_laws, crate::proofs::Layers::wrote_part))]
pub fn written()
    ensures bytes { (old new : Memory) (b : Block) (at : ℕ) (list : List ℕ) → WritesBlock old new b at list
        → at + length list ≤ b.size
        → bytes_from (image new) b.addr b.size ≡ splice (bytes_from (image old) b.addr b.size) at list }
    ensures whole { (old new : Memory) (b : Block) (list : List ℕ) → WritesBlock old new b 0 list
        → length list ≡ b.size
        → bytes_from (image new) b.addr b.size ≡ list }
    ensures readable { (old new : Memory) (b c : Block) (at : ℕ) (list : List ℕ)
        → WritesBlock old new b at list
        → is_readable new.state c ≡ is_readable old.state c }
    ensures then { (old mid new : Memory) (b : Block) (at : ℕ) (first second : List ℕ)
        → WritesBlock old mid b at first
        → WritesBlock mid new b (at + length first) second → WritesBlock old new b at (first ++ second) }
    ensures nothing { (memory : Memory) (b : Block) (at : ℕ) → IsValid memory.state → at ≤ b.size
        → WritesBlock memory memory b at [] }
    ensures by { (old new : Memory) (b : Block) (at size : ℕ) (f : List ℕ → List ℕ)
        → EditsBlock old new b at size (λ before after. after ≡ f before)
        → WritesBlock old new b at (f (bytes_from (image old) (b.addr + at) size)) }
{}

/// No byte changes when a block is given back. With least alignment 1, only the use of the block's own bytes changes.
#[tactic(auto, using(crate::proofs::Layers::returned_bytes, crate::proofs::Layers::returned_plain))]
pub fn given_back()
    ensures bytes { (old new : Memory) (b : Block) (addr : ℕ) → GivesBack old new b
        → image new addr ≡ image old addr }
    ensures plain { (old new : Memory) (b : Block) → GivesBack old new b → old.state.min_align ≡ 1
        → Frame old new (b ∷ []) [] }
{}
