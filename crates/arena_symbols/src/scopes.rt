// Scopes of names.
ghost use Rattle.std.specs.Prelude.{◌≡◌, ◌-◌, ◌<◌, ◌≤◌, length, true};
ghost use Rattle.arena_chunks.specs.Memory.{Memory};
ghost use Rattle.std.specs.Int.{w32, to_le_bytes};
ghost use Rattle.arena_hash.specs.Finite.{has};
ghost use Rattle.arena_hash.specs.Maps.{IsMapIn, map_in};
ghost use Rattle.arena_vec.specs.Vecs.{IsVecIn};
ghost use Rattle.arena_symbols.specs.Listing.{place_item};
ghost use Rattle.arena_symbols.specs.Scoping.{lookup, is_in_last, start_in, stands_from};
ghost use Rattle.arena_symbols.specs.Tables.{IsTableIn, scopes_in, starts_in, id_kind, entry_item};
ghost use Rattle.arena_symbols.specs.TableCalls.{IsNewTable, Enters, Leaves, Defines, Cuts, Unhides};

use crate::listing::put_listed;
use arena_chunks::{Allocator, ChunkSource};
use arena_hash::HashMap;
use arena_items::{AllocError, Grown, Item};
use arena_vec::Vec;
use arena_vec::laws::{growth_costs, vector_costs};

/// The maximum number of maps in a scoped table.
pub const MOST_SCOPES: u32 = 536_870_912;

/// The maximum number of pairs in its maps together.
pub const MOST_PAIRS: u32 = 134_217_728;

/// A pair with what it hid: the id, the value, and the place of the newest pair before it with that id.
pub type Entry = (u32, (u32, Option<u32>));

/// Maps from ids to values, one inside another. It is a handle: two of them may refer to the same table.
#[derive(Clone, Copy)]
pub struct Scopes {
    /// The place of the newest pair of each id.
    pub newest: HashMap<u32, u32>,
    /// The pairs of all maps, the outermost map's first.
    pub pairs: Vec<Entry>,
    /// Where the pairs of each map begin, except the outermost.
    pub starts: Vec<u32>,
    /// Where the pairs of the innermost map begin: the last item of `starts`, or 0.
    pub start: u32,
}

impl Scopes {
    /// Returns a table with one empty map. Nothing is placed.
    pub fn new_in() -> Scopes
        ensures { IsNewTable entry_item result }
    {
        Scopes {
            newest: HashMap::new_in(),
            pairs: Vec::new_in(),
            starts: Vec::new_in(),
            start: 0,
        }
    }

    /// Returns the number of maps.
    pub fn depth(&self) -> u32
        ensures { (memory : Memory) → IsTableIn entry_item memory self.now
            → result ≡ length (scopes_in entry_item memory self.now) }
    {
        self.starts.len().saturating_add(1)
    }

    /// Returns the value of an id in the innermost map that has it.
    #[inline(always)]
    #[tactic(auto, using(crate::proofs::TableLemmas::entry_size))]
    pub fn lookup<C: ChunkSource>(&self, a: &Allocator<C>, id: u32) -> Option<u32>
        requires { IsTableIn entry_item a.now.memory self.now }
        ensures { result ≡ lookup (scopes_in entry_item a.now.memory self.now) id }
    {
        match self.newest.get(a, id) {
            Some(at) => {
                let entry = self.pairs.get(a, at);
                Some(entry.1.0)
            }
            None => None,
        }
    }

    /// Returns whether the innermost map has an id.
    pub fn in_last<C: ChunkSource>(&self, a: &Allocator<C>, id: u32) -> bool
        requires { IsTableIn entry_item a.now.memory self.now }
        ensures { result ≡ is_in_last (scopes_in entry_item a.now.memory self.now) id }
    {
        self.is_inner(self.newest.get(a, id))
    }

    // Whether a pair that was found is one of the innermost map's.
    #[inline(always)]
    fn is_inner(&self, found: Option<u32>) -> bool
        ensures { result ≡ stands_from found self.now.start }
    {
        match found {
            Some(at) => at >= self.start,
            None => false,
        }
    }

    /// Begins a new innermost map, inside the others.
    ///
    /// # Errors
    ///
    /// `CapacityOverflow` if there are 536,870,912 maps; otherwise as for the arena's `alloc_layout` and `grow`. The
    /// maps are unchanged.
    #[inline]
    pub fn enter<C: ChunkSource>(&mut self, a: &mut Allocator<C>) -> Grown<()>
        requires { IsTableIn entry_item a.old.memory self.old }
        ensures { Enters entry_item a.old a.new self.old self.new result }
    {
        growth_costs();
        vector_costs::<u32, ()>();
        // For the proof: the least alignment is 1.
        a.known();
        if self.starts.len() >= MOST_SCOPES - 1 {
            return Err(AllocError::CapacityOverflow);
        }
        let n = self.pairs.len();
        self.starts.push(a, n)?;
        self.start = n;
        Ok(())
    }

    /// Puts a pair into the innermost map, unless that has the id, and returns whether it did.
    ///
    /// # Errors
    ///
    /// `CapacityOverflow` for a new pair if there are 134,217,728 pairs; otherwise as for the arena's `alloc_layout`
    /// and `grow`. The maps are unchanged.
    #[inline(always)]
    pub fn define<C: ChunkSource>(
        &mut self,
        a: &mut Allocator<C>,
        id: u32,
        value: u32,
    ) -> Grown<bool>
        requires { IsTableIn entry_item a.old.memory self.old }
        ensures { Defines entry_item a.old a.new self.old self.new id value result }
    {
        if self.pairs.len() < self.pairs.capacity() {
            self.define_pair(a, id, value)
        } else {
            self.define_growing(a, id, value)
        }
    }

    // `define` if the list of pairs is full. A separate function, so that a `define` with room in the list writes no
    // more of the list's handle than its length.
    #[cold]
    #[inline(never)]
    fn define_growing<C: ChunkSource>(
        &mut self,
        a: &mut Allocator<C>,
        id: u32,
        value: u32,
    ) -> Grown<bool>
        requires { IsTableIn entry_item a.old.memory self.old }
        ensures { Defines entry_item a.old a.new self.old self.new id value result }
    {
        self.define_pair(a, id, value)
    }

    // `define`, inlined into both paths.
    #[inline(always)]
    fn define_pair<C: ChunkSource>(
        &mut self,
        a: &mut Allocator<C>,
        id: u32,
        value: u32,
    ) -> Grown<bool>
        requires { IsTableIn entry_item a.old.memory self.old }
        ensures { Defines entry_item a.old a.new self.old self.new id value result }
    {
        // For the proof: the least alignment is 1.
        a.known();
        let content = id.to_le_bytes();
        let (hidden, look) = self.newest.search(a, &content);
        if self.is_inner(hidden) {
            return Ok(false);
        }
        if self.pairs.len() >= MOST_PAIRS {
            return Err(AllocError::CapacityOverflow);
        }
        put_listed(
            &mut self.newest,
            &mut self.pairs,
            a,
            look,
            id,
            (id, (value, hidden)),
        )?;
        Ok(true)
    }

    // Removes the newest pair, so that the one that it hid is the newest of its id again. It takes no memory: the id's
    // place in `newest` is replaced, or removed.
    #[inline(always)]
    #[tactic(auto, using(crate::proofs::TableLemmas::entry_size))]
    fn undo<C: ChunkSource>(&mut self, a: &mut Allocator<C>)
        requires held { IsTableIn entry_item a.old.memory self.old }
        requires inner { self.old.start < self.old.pairs.raw.len }
        ensures { Cuts entry_item a.old a.new self.old self.new (self.old.pairs.raw.len - 1) }
    {
        let last = self.pairs.len() - 1;
        let entry = self.pairs.get(a, last);
        entry.known();
        self.pairs.truncate(last);
        self.unhide(a, entry.0, entry.1.1);
    }

    // Removes the pairs from a place on, the newest first.
    #[inline(always)]
    fn cut<C: ChunkSource>(&mut self, a: &mut Allocator<C>, start: u32)
        requires held { IsTableIn entry_item a.old.memory self.old }
        requires inner { self.old.start ≤ start }
        requires within { start ≤ self.old.pairs.raw.len }
        ensures { Cuts entry_item a.old a.new self.old self.new start }
    {
        'pairs: while self.pairs.len() > start {
            self.undo(a);
        }
    }

    // Restores the place that an id's pair hid, or removes the id if it hid none.
    #[inline(always)]
    fn unhide<C: ChunkSource>(&mut self, a: &mut Allocator<C>, id: u32, hidden: Option<u32>)
        requires held { IsMapIn id_kind a.old.memory self.old.newest }
        requires there { has (map_in id_kind a.old.memory self.old.newest) (to_le_bytes w32 id) ≡ true }
        ensures unhides { Unhides a.old a.new self.old.newest id hidden self.new.newest }
        ensures rest { self.new ≡ record self.old { newest = self.new.newest } }
    {
        match hidden {
            Some(at) => {
                let _ = self.newest.insert(a, id, at);
            }
            None => {
                let _ = self.newest.remove(a, id);
            }
        }
    }

    /// Ends the innermost map, unless it is the only one, and returns whether it did.
    pub fn leave<C: ChunkSource>(&mut self, a: &mut Allocator<C>) -> bool
        requires { IsTableIn entry_item a.old.memory self.old }
        ensures { Leaves entry_item a.old a.new self.old self.new result }
    {
        if self.starts.is_empty() {
            return false;
        }
        let start = self.start;
        self.starts.truncate(self.starts.len() - 1);
        self.start = self.last_start(a);
        self.cut(a, start);
        true
    }

    // Where the innermost map begins, as read from the list of starts.
    #[inline(always)]
    #[tactic(auto, using(crate::proofs::ScopeLemmas::start_laws))]
    fn last_start<C: ChunkSource>(&self, a: &Allocator<C>) -> u32
        requires { IsVecIn place_item a.now.memory self.now.starts }
        ensures { result ≡ start_in (starts_in a.now.memory self.now) }
    {
        let n = self.starts.len();
        if n == 0 { 0 } else { self.starts.get(a, n - 1) }
    }
}
