// A list of values, and a map from keys to places in the list.
ghost use Rattle.arena_hash.specs.Contents.{content_in};
ghost use Rattle.arena_hash.specs.Maps.{IsLookIn};
ghost use Rattle.arena_symbols.specs.Listing.{CanList, Lists, place_kind};

use arena_chunks::{Allocator, ChunkSource};
use arena_hash::{ArenaKey, FxHasher, HashMap, Look, insert_law};
use arena_items::{Grown, Item};
use arena_vec::Vec;
use arena_vec::laws::{growth_costs, vector_costs};

// Appends a value to the list, inserts its place into the map under a key, where the search for the key ended, and
// returns the place. On an error the list and the map have the same contents as before.
#[inline(always)]
pub(crate) fn put_listed<K: ArenaKey, T: Item, C: ChunkSource>(
    map: &mut HashMap<K, u32>,
    list: &mut Vec<T>,
    a: &mut Allocator<C>,
    look: Look,
    key: K,
    value: T,
) -> Grown<u32>
    requires can { CanList T.Item (place_kind K.Item K.key) a.old.memory map.old list.old key }
    requires look { IsLookIn (place_kind K.Item K.key) a.old.memory map.old (content_in K.key a.old.memory key) look }
    ensures { Lists T.Item (place_kind K.Item K.key) a.old a.new map.old list.old key value map.new list.new result }
{
    insert_law::<K, u32, FxHasher>();
    growth_costs();
    vector_costs::<T, ()>();
    // For the proof: the least alignment is 1.
    a.known();
    let at = list.len();
    list.push(a, value)?;
    match map.insert_at(a, look, key, at) {
        Ok(_) => Ok(at),
        Err(e) => {
            list.truncate(at);
            Err(e)
        }
    }
}
