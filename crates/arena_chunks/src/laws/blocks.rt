// Blocks that are apart, blocks that are readable, and their bytes.
ghost use Rattle.std.specs.Prelude.{◌≡◌, ℕ, ◌+◌, ◌^◌, ◌<◌, ◌≤◌, ◌↔◌, IsTrue, List, ◌∷◌, [], ◌++◌, length, take, drop, sum, map};
ghost use Rattle.std.specs.List.{AllByRecursion, Contains};
ghost use Rattle.arena_rules.specs.State.{State, IsValid, used_bytes};
ghost use Rattle.arena_rules.specs.Moves.{reset};
ghost use Rattle.arena_store.specs.Memory.{Memory, is_readable, image, bytes_from};
ghost use Rattle.arena_core.specs.Frame.{IsApart, AreBlocksApart, ArePairwiseApart, AreAllApart, IsInUse};
ghost use Rattle.arena_core.specs.Resizes.{NoneReadable};
ghost use Rattle.arena_store.specs.declared.block.Block.{Block};

/// Blocks are apart in either order. A range that is apart from blocks is so with each part of it, and it is apart from
/// two lists of blocks exactly if it is apart from both together. Two lists of blocks, each pairwise apart, are
/// pairwise apart together, if each block of one is apart from each of the other.
pub fn apart()
    ensures turned { (b c : Block) → AreBlocksApart b c → AreBlocksApart c b }
    ensures within { (addr n from k : ℕ) (bs : List Block) → addr ≤ from → from + k ≤ addr + n
        → IsApart addr n bs
        → IsApart from k bs }
    ensures both { (addr n : ℕ) (xs ys : List Block)
        → IsApart addr n (xs ++ ys) ↔ (IsApart addr n xs × IsApart addr n ys) }
    ensures empty { (addr n : ℕ) (bs : List Block) → n ≡ 0 → IsApart addr n bs }
    ensures all { (b : Block) (bs : List Block) → IsApart b.addr b.size bs → AreAllApart bs (b ∷ []) }
    ensures pairwise { (xs ys : List Block) → ArePairwiseApart xs → ArePairwiseApart ys → AreAllApart xs ys
        → ArePairwiseApart (xs ++ ys) }
{}

/// One list of blocks is apart from another, if each of its blocks is. Every list is apart from the empty list, and
/// from two lists together exactly if it is apart from each; two lists together are apart from a third exactly if each
/// is.
pub fn all_apart()
    ensures from_none { (bs : List Block) → AreAllApart bs [] }
    ensures from_both { (bs xs ys : List Block)
        → AreAllApart bs (xs ++ ys) ↔ (AreAllApart bs xs × AreAllApart bs ys) }
    ensures of_both { (xs ys others : List Block)
        → AreAllApart (xs ++ ys) others ↔ (AreAllApart xs others × AreAllApart ys others) }
    ensures among { (bs others : List Block) (b : Block) → AreAllApart bs others → Contains bs b
        → IsApart b.addr b.size others }
    ensures each { (bs others : List Block) → ((b : Block) → Contains bs b → IsApart b.addr b.size others)
        → AreAllApart bs others }
{}

/// An empty block is readable in every state. A block of some bytes is readable exactly if it is of the arena's
/// generation and its bytes are in the used part of one chunk. It then is at 4096 or above, and below 2^64. None has
/// more than 2^63 - 64 bytes. If no byte is in use, as after a reset, no block of some bytes is readable. Readable
/// blocks that are pairwise apart together have at most as many bytes as are in use.
#[tactic(auto, using(crate::proofs::Layers::readable_laws))]
pub fn readable()
    ensures empty { (state : State) (b : Block) → b.size ≡ 0 → IsTrue (is_readable state b) }
    ensures filled { (state : State) (b : Block) → 0 < b.size
        → IsTrue (is_readable state b) ↔ IsInUse state b }
    ensures low { (state : State) (b : Block) → IsValid state → 0 < b.size → IsTrue (is_readable state b)
        → 4096 ≤ b.addr }
    ensures high { (state : State) (b : Block) → IsValid state → 0 < b.size → IsTrue (is_readable state b)
        → b.addr + b.size < 2 ^ 64 }
    ensures size { (state : State) (b : Block) → IsValid state → IsTrue (is_readable state b)
        → b.size + 64 ≤ 2 ^ 63 }
    ensures unused { (state : State) → used_bytes state ≡ 0 → NoneReadable state }
    ensures ended { (state : State) → NoneReadable (reset state) }
    ensures together { (state : State) (bs : List Block)
        → AllByRecursion (λ (b : Block). IsTrue (is_readable state b)) bs → ArePairwiseApart bs
        → sum (map (λ (b : Block). b.size) bs) ≤ used_bytes state }
{}

/// A block has as many bytes as its size. They are the same in two arenas that have the same bytes at its addresses.
/// Those of a range are that part of all of them.
#[tactic(auto, using(crate::proofs::Layers::layer_laws, crate::proofs::Layers::bytes_same, crate::proofs::Layers::bytes_within))]
pub fn bytes()
    ensures length { (memory : Memory) (addr n : ℕ) → length (bytes_from (image memory) addr n) ≡ n }
    ensures same { (a c : Memory) (b : Block)
        → ((i : ℕ) → i < b.size → image a (b.addr + i) ≡ image c (b.addr + i))
        → bytes_from (image a) b.addr b.size ≡ bytes_from (image c) b.addr b.size }
    ensures range { (memory : Memory) (b : Block) (from n : ℕ) → from + n ≤ b.size
        → take n (drop from (bytes_from (image memory) b.addr b.size))
        ≡ bytes_from (image memory) (b.addr + from) n }
{}
