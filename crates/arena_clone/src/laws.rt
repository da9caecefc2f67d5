// What becomes of values and of their copies while an arena is used. Each law is a call that does nothing: made in a body, it
// gives its facts there.
ghost use Rattle.std.specs.Prelude.{◌≡◌, ℕ, ◌+◌, ◌*◌, ◌≤◌, ◌↔◌, Option, Some, None, List, [], ◌∷◌};
ghost use Rattle.arena_chunks.specs.Memory.{Memory};
ghost use Rattle.arena_chunks.specs.Source.{View};
ghost use Rattle.arena_chunks.specs.Frame.{Frame, AreAllApart};
ghost use Rattle.arena_store.specs.declared.block.Block.{Block};
ghost use Rattle.arena_clone.specs.Asks.{Ask, AsksFor, vector_ask};
ghost use Rattle.arena_clone.specs.AskBytes.{have_layouts, least_bytes, most_bytes, used, BringsBytes};
ghost use Rattle.arena_clone.specs.Asks.Ask.{Room};
ghost use Rattle.arena_clone.specs.Kinds.{AreAlike, text_ask, option_of, box_of, slice_of, vec_of};
ghost use Rattle.arena_clone.specs.Alike.{AreOptionsAlike, AreListsAlike, AreMapsAlike};
ghost use Rattle.arena_clone.specs.Copies.{IsMade, StaysWhole};
ghost use Rattle.arena_clone.specs.MapKind.{map_of, table_ask};
ghost use Rattle.arena_hash.specs.Contents.{kind};
ghost use Rattle.arena_hash.specs.Maps.{IsMapIn};
ghost use Rattle.arena_hash.specs.declared.map.HashMap.{HashMap};
ghost use Rattle.arena_vec.specs.declared.vec.Vec.{Vec};
ghost use Rattle.arena_vec.specs.Vecs.{vec_list};
ghost use Rattle.arena_items.specs.Values.{box_value, slice_list};
ghost use Rattle.arena_items.specs.declared.room.AllocError.{AllocError};
ghost use Rattle.arena_items.specs.declared.boxes.Box.{Box};
ghost use Rattle.arena_items.specs.declared.slices.BoxSlice.{BoxSlice};
ghost use Rattle.arena_kinds.specs.declared.ids.CloneInSemanticIds.{CloneInSemanticIds};
ghost use Rattle.arena_kinds.specs.declared.ids.CloneInSemanticIds.TheVariants.{With};

use crate::clone_in::CloneIn;
use crate::keys::CloneKey;
use arena_hash::{KeyHasher, lengths_law};
use arena_items::Item;

/// When values that are made of others are alike by the rule for ids, whatever memory each is in: options if both are
/// `None` or their values are alike, boxes if their values are, and slices and vectors if they have the same length and
/// the values at each position are alike.
pub fn alike_law<T: CloneIn + Item>()
    ensures options { (ids : CloneInSemanticIds) (a c : Memory) (v w : Option T)
        → AreAlike (option_of T.kind) ids a v c w ↔ AreOptionsAlike T.kind ids a v c w }
    ensures boxes { (ids : CloneInSemanticIds) (a c : Memory) (v w : Box T)
        → AreAlike (box_of T.Item T.kind) ids a v c w
        ↔ AreAlike T.kind ids a (box_value T.Item a v) c (box_value T.Item c w) }
    ensures slices { (ids : CloneInSemanticIds) (a c : Memory) (v w : BoxSlice T)
        → AreAlike (slice_of T.Item T.kind) ids a v c w
        ↔ AreListsAlike T.kind ids a (slice_list T.Item a v) c (slice_list T.Item c w) }
    ensures vectors { (ids : CloneInSemanticIds) (a c : Memory) (v w : Vec T)
        → AreAlike (vec_of T.Item T.kind) ids a v c w
        ↔ AreListsAlike T.kind ids a (vec_list T.Item a v) c (vec_list T.Item c w) }
{}

/// When two maps are alike by the rule for ids, whatever hashers they have: if the same contents are keys of both, and
/// the values of each are alike. Then they have the same length.
pub fn maps_alike_law<K: CloneKey, V: CloneIn + Item, S: KeyHasher>()
    ensures alike { (ids : CloneInSemanticIds) (a c : Memory) (v w : HashMap K V S)
        → AreAlike (map_of (kind K.Item K.key V.Item S.hash_of) S.is_default K.kind V.kind) ids a v c w
        ↔ AreMapsAlike (kind K.Item K.key V.Item S.hash_of) V.kind ids a v c w }
    ensures lengths { (ids : CloneInSemanticIds) (a c : Memory) (v w : HashMap K V S)
        → IsMapIn (kind K.Item K.key V.Item S.hash_of) a v → IsMapIn (kind K.Item K.key V.Item S.hash_of) c w
        → AreAlike (map_of (kind K.Item K.key V.Item S.hash_of) S.is_default K.kind V.kind) ids a v c w → v.len ≡ w.len }
{
    lengths_law::<K, V, S>();
}

/// The frame law at every depth. A call on some blocks keeps every value whose blocks are apart from them: it is held,
/// names the same blocks, means the same, and its blocks are apart from those that the call has afterwards.
pub fn deep_frame_law<T: CloneIn>()
    ensures { (old new : Memory) (before after : List Block) (v : T) → Frame old new before after
        → T.kind.is_held old v → AreAllApart (T.kind.deep old v) before
        → StaysWhole T.kind old new after v }
{}

/// A value and its copy. Whatever arena the source is in, a call on blocks that are apart from the copy's leaves the
/// copy as it was made. A source in the arena of its copy is as it was before the copy was made, and the blocks of each
/// are apart from those of the other: so a call on the blocks of only one leaves the other. What is said of the source
/// is `deep_frame_law` for calls that have no blocks before. A copy that keeps ids means exactly what its source means.
pub fn copy_law<T: CloneIn>()
    ensures copy { (new later : Memory) (blocks before after : List Block) (meaning : T.kind.Whole) (w : T)
        → IsMade T.kind meaning new blocks w → Frame new later before after → AreAllApart blocks before
        → IsMade T.kind meaning later blocks w }
    ensures source { (old new : Memory) (blocks : List Block) (v : T) → Frame old new [] blocks
        → T.kind.is_held old v → StaysWhole T.kind old new blocks v }
    ensures apart { (old new : Memory) (blocks : List Block) (v : T) → Frame old new [] blocks
        → T.kind.is_held old v → AreAllApart blocks (T.kind.deep old v) }
    ensures ids { (w : T.kind.Whole) → T.kind.by_ids With w ≡ w }
{}

/// If values ask for nothing, a copy of a list of them asks for its one block alone, and for none if that is a vector's
/// and has no bytes.
pub fn one_block_law<T: CloneIn + Item>()
    ensures vector { ((m : Memory) (v : T) → T.kind.asks m v ≡ []) → (m : Memory) (v : Vec T)
        → (vec_of T.Item T.kind).asks m v ≡ vector_ask T.SIZE T.ALIGN v.raw.len ∷ [] }
    ensures slice { ((m : Memory) (v : T) → T.kind.asks m v ≡ []) → (m : Memory) (s : BoxSlice T)
        → (slice_of T.Item T.kind).asks m s ≡ Room (s.length * T.SIZE) T.ALIGN ∷ [] }
{}

/// If keys and values ask for nothing, a copy of a map of them asks for its table alone, and for none if the map is
/// empty.
pub fn one_table_law<K: CloneKey, V: CloneIn + Item, S: KeyHasher>()
    ensures { ((m : Memory) (key : K) → K.kind.asks m key ≡ []) → ((m : Memory) (v : V) → V.kind.asks m v ≡ [])
        → (m : Memory) (h : HashMap K V S)
        → (map_of (kind K.Item K.key V.Item S.hash_of) S.is_default K.kind V.kind).asks m h
        ≡ table_ask (kind K.Item K.key V.Item S.hash_of) h.len ∷ [] }
{}

/// What a copy brings into use, by what it asks of its arena: at least `least_bytes` if nothing is refused, and at most
/// `most_bytes`, which has the padding. A copy that asks for one block alone and is refused leaves the arena's state as
/// it was.
pub fn asks_law()
    ensures least { (asks : List Ask) (old new : View) (blocks : List Block) → have_layouts asks
        → AsksFor asks old new blocks None → used old + least_bytes asks ≤ used new }
    ensures most { (asks : List Ask) (old new : View) (blocks : List Block) (end : Option AllocError)
        → have_layouts asks → AsksFor asks old new blocks end → used new ≤ used old + most_bytes asks }
    ensures refused { (ask : Ask) (old new : View) (blocks : List Block) (e : AllocError)
        → have_layouts (ask ∷ []) → AsksFor (ask ∷ []) old new blocks (Some e)
        → new.memory.state ≡ old.memory.state }
{}

/// What a copy of a vector of values that ask for nothing brings into use, and a copy of a text builder, by what it
/// asks of its arena: its bytes, and at most 15 of padding. If it is refused, the arena's state is as it was.
pub fn list_bytes_law<T: Item>()
    ensures vector { (n : ℕ) (old new : View) (blocks : List Block) (end : Option AllocError)
        → AsksFor (vector_ask T.SIZE T.ALIGN n ∷ []) old new blocks end → BringsBytes (n * T.SIZE) old new end }
    ensures text { (n : ℕ) (old new : View) (blocks : List Block) (end : Option AllocError)
        → AsksFor (text_ask n ∷ []) old new blocks end → BringsBytes n old new end }
{}
