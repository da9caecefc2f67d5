// How room is made ready. The loops write nothing else, so that they compile to a fill or a copy of memory.
ghost use Rattle.std.specs.Prelude.{◌≡◌, ◌-◌, ◌≤◌, ◌++◌, length, replicate};
ghost use Rattle.std.specs.Vec.{vec_len, vec_capacity};

use crate::store::{Base, Store};

// Writes zeros from the end of the room down to an index.
pub(crate) fn clear(store: &mut Store, base: Base, room: usize, from: usize)
    requires place { base.ptr ≡ store.old.at }
    requires room { store.old.room ≡ room }
    requires from { from ≤ room }
    ensures place { store.new.at ≡ store.old.at }
    ensures room { store.new.room ≡ from }
    ensures ready { store.new.ready ≡ replicate (room - from) 0 ++ store.old.ready }
{
    let mut at = room;
    while at > from {
        at -= 1;
        store.put(base, at, 0);
    }
}

// Writes these bytes into the whole room.
pub(crate) fn copy(store: &mut Store, base: Base, list: &[u8])
    requires place { base.ptr ≡ store.old.at }
    requires room { store.old.room ≡ length list.now }
    ensures place { store.new.at ≡ store.old.at }
    ensures room { store.new.room ≡ 0 }
    ensures ready { store.new.ready ≡ list.now ++ store.old.ready }
{
    let mut at = list.len();
    while at > 0 {
        at -= 1;
        store.put(base, at, list[at]);
    }
}

// Fills a vector's spare capacity with zeros.
pub(crate) fn filled(list: Vec<u8>) -> Vec<u8>
    ensures full { vec_len result ≡ vec_capacity result }
    ensures items { result.items ≡ list.items ++ replicate (vec_capacity list - vec_len list) 0 }
{
    let mut vec = list;
    let size = vec.capacity();
    let mut at = vec.len();
    while at < size {
        vec.push_reserved(0);
        at += 1;
    }
    vec
}
