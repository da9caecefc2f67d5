// Marks, and calls on blocks after them.
ghost use Rattle.std.specs.Prelude.{ℕ, IsTrue, List};
ghost use Rattle.arena_rules.specs.State.{State, IsValid};
ghost use Rattle.arena_rules.specs.Moves.{Resizing};
ghost use Rattle.arena_store.specs.Memory.{Memory};
ghost use Rattle.arena_store.specs.Source.{View};
ghost use Rattle.arena_core.specs.Answers.{Answer};
ghost use Rattle.arena_core.specs.BlockCalls.{PlacesBlock, ResizesBlock, GivesBack, WritesBlock};
ghost use Rattle.arena_core.specs.Checkpoints.{checkpoint_of, is_accepted, KeepsCheckpoint};
ghost use Rattle.arena_store.specs.declared.block.Block.{Block};
ghost use Rattle.arena_core.specs.declared.rewind.Checkpoint.{Checkpoint};

/// A valid arena accepts its own mark. No call on a block ends a mark: an accepted mark still is accepted, and what is
/// in use before and after the call stays in its part, if it was there.
pub fn marks()
    ensures own { (state : State) → IsValid state → IsTrue (is_accepted (checkpoint_of state) state) }
    ensures placed { (c : Checkpoint) (old new : View) (size align : ℕ) (answer : Answer)
        → IsTrue (is_accepted c old.memory.state) → PlacesBlock old new size align answer
        → KeepsCheckpoint c old.memory.state new.memory.state }
    ensures resized { (c : Checkpoint) (way : Resizing) (old new : View) (block : Block) (size align : ℕ) (answer : Answer)
        → IsTrue (is_accepted c old.memory.state) → ResizesBlock way old new block size align answer
        → KeepsCheckpoint c old.memory.state new.memory.state }
    ensures given_back { (c : Checkpoint) (old new : Memory) (b : Block) → IsTrue (is_accepted c old.state)
        → GivesBack old new b → KeepsCheckpoint c old.state new.state }
    ensures written { (c : Checkpoint) (old new : Memory) (b : Block) (at : ℕ) (list : List ℕ)
        → IsTrue (is_accepted c old.state) → WritesBlock old new b at list → KeepsCheckpoint c old.state new.state }
{}
