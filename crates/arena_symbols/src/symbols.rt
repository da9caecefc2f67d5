// Texts with a number each.
ghost use Rattle.std.specs.Prelude.{◌≡◌, ◌^◌, ◌<◌, Some, IfOk, slice_get, length, IsTrue};
ghost use Rattle.arena_chunks.specs.BlockCalls.{PlacesBlock};
ghost use Rattle.arena_chunks.specs.Memory.{Memory, is_readable};
ghost use Rattle.arena_hash.specs.Maps.{IsLookIn};
ghost use Rattle.arena_items.specs.Room.{RoomAnswer};
ghost use Rattle.arena_items.specs.Values.{bytes_of};
ghost use Rattle.arena_symbols.specs.Interner.{number_of};
ghost use Rattle.arena_symbols.specs.Interning.{IsNewInterner, Interns};
ghost use Rattle.arena_symbols.specs.Names.{IsInternerIn, name_kind, names_in, texts_in};

use crate::listing::put_listed;
use arena_chunks::{Allocator, ChunkSource, Str};
use arena_hash::{FxHasher, HashMap, Look, texts_law};
use arena_items::{AllocError, Grown, grown};
use arena_vec::Vec;

/// The maximum number of texts in an interner.
pub const MOST_TEXTS: u32 = 67_108_864;

/// Texts, each with a number: its place among them. It is a handle: two of them may refer to the same interner.
#[derive(Clone, Copy)]
pub struct Symbols {
    /// The number of each text.
    pub numbers: HashMap<Str, u32>,
    /// The texts, by their numbers.
    pub texts: Vec<Str>,
}

impl Symbols {
    /// Returns an interner without texts. Nothing is placed.
    pub fn new_in() -> Symbols
        ensures { IsNewInterner result }
    {
        Symbols {
            numbers: HashMap::new_in(),
            texts: Vec::new_in(),
        }
    }

    /// Returns the number of texts.
    #[tactic(auto, using(crate::proofs::InternLemmas::length_names))]
    pub fn len(&self) -> u32
        ensures { (memory : Memory) → result ≡ length (names_in memory self.now) }
    {
        self.texts.len()
    }

    /// Returns the number of a text, if it has one.
    #[inline(always)]
    pub fn find<C: ChunkSource>(&self, a: &Allocator<C>, text: &str) -> Option<u32>
        requires { IsInternerIn a.now.memory self.now }
        ensures { result ≡ number_of (names_in a.now.memory self.now) text.now }
    {
        self.search(a, text).0
    }

    // The number of a text, if it has one, and where the search for the text ended.
    #[inline(always)]
    #[tactic(auto, using(crate::proofs::InternLemmas::number_is))]
    fn search<C: ChunkSource>(&self, a: &Allocator<C>, text: &str) -> (Option<u32>, Look)
        requires { IsInternerIn a.now.memory self.now }
        ensures number { result.0 ≡ number_of (names_in a.now.memory self.now) text.now }
        ensures look { IsLookIn name_kind a.now.memory self.now.numbers text.now result.1 }
    {
        self.numbers.search(a, text.as_bytes())
    }

    /// Returns the text with a number.
    #[tactic(auto, using(crate::proofs::InternLemmas::text_laws))]
    pub fn text<C: ChunkSource>(&self, a: &Allocator<C>, id: u32) -> Str
        requires held { IsInternerIn a.now.memory self.now }
        requires id { id < length (names_in a.now.memory self.now) }
        ensures handle { slice_get (texts_in a.now.memory self.now) id ≡ Some result }
        ensures name { slice_get (names_in a.now.memory self.now) id ≡ Some
            (bytes_of a.now.memory result.block) }
        ensures readable { IsTrue (is_readable a.now.memory.state result.block) }
    {
        self.texts.get(a, id)
    }

    /// Returns the number of a text: the one that it has, or the next one. A new text is copied into the arena.
    ///
    /// # Errors
    ///
    /// `CapacityOverflow` for a new text if there are 67,108,864 texts; `AllocErr` and `OutOfMemory` as for the arena's
    /// `alloc_layout` and `grow`. The texts are unchanged; what was placed for the new one is unused.
    #[tactic(auto, using(crate::proofs::InternCalls::interns_known, crate::proofs::InternCalls::interns_full))]
    pub fn intern<C: ChunkSource>(&mut self, a: &mut Allocator<C>, text: &str) -> Grown<u32>
        requires held { IsInternerIn a.old.memory self.old }
        requires length { length text.now < 2 ^ 32 }
        ensures { Interns a.old a.new self.old self.new text.now result }
    {
        texts_law::<Str, u32, FxHasher>();
        // For the proof: the least alignment is 1.
        a.known();
        let (known, look) = self.search(a, text);
        if let Some(id) = known {
            return Ok(id);
        }
        if self.texts.len() >= MOST_TEXTS {
            return Err(AllocError::CapacityOverflow);
        }
        let placed = place_text(a, text)?;
        put_listed(&mut self.numbers, &mut self.texts, a, look, placed, placed)
    }
}

// Places a text.
fn place_text<C: ChunkSource>(a: &mut Allocator<C>, text: &str) -> Grown<Str>
    requires { length text.now < 2 ^ 32 }
    ensures placed { RoomAnswer (λ s. s.block) result (PlacesBlock a.old a.new (length text.now) 1) }
    ensures text { IfOk result (λ s. bytes_of a.new.memory s.block ≡ text.now) }
{
    grown(a.alloc_str(text))
}
