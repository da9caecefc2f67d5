// All by one name: types, traits, laws, and what contracts say of them.
ghost use Rattle.std.specs.Prelude.{◌≡◌, ◌^◌, ◌≤◌, ◌++◌, [], ◌∷◌, OnOk};
ghost use Rattle.arena.specs.Frame.{AreBlocksApart};
ghost use Rattle.arena.specs.Values.{IsBoxIn, box_value};
ghost use Rattle.arena.specs.Vecs.{IsVecIn, vec_list};

use arena::laws::items::frame_law;
use arena::{
    Allocator, Ast, Box, ByParts, ChunkSource, Grown, Item, Linked, Listed, OutOfMemory, Parts,
    Plain, Scoped, Vec, bind, bound, copy_nodes, list_operands, new_listed, new_scoped,
};
use arena_threads::pools::{ChunkMaker, PoolName};
use arena_threads::{AllocatorGuard, AllocatorPool};
use std::sync::Wait;

/// Appends a value to a vector, next to a box.
pub fn push_beside<T: Item, U: Item, C: ChunkSource>(
    a: &mut Allocator<C>,
    vec: &mut Vec<T>,
    other: Box<U>,
    value: T,
) -> Grown<()>
    requires small { T.SIZE ≤ 2 ^ 24 }
    requires vec { IsVecIn T.Item a.old.memory vec.old }
    requires other { IsBoxIn U.Item a.old.memory other }
    requires apart { AreBlocksApart other.block vec.old.raw.block }
    ensures list { let list = vec_list T.Item a.old.memory vec.old ++ value ∷ [] in
        OnOk result (vec_list T.Item a.new.memory vec.new ≡ list) }
    ensures held { IsBoxIn U.Item a.new.memory other }
    ensures other { box_value U.Item a.new.memory other ≡ box_value U.Item a.old.memory other }
{
    frame_law::<Box<U>>();
    vec.push(a, value)
}

fn trees<T: Parts + Linked, C: ChunkSource>(
    a: &mut Allocator<C>,
    tree: &mut Listed<ByParts<T>>,
    node: ByParts<T>,
    operands: &[u32],
) {
    return;
    let _: Ast<ByParts<T>> = Ast::new_in();
    let _: Grown<u32> = tree.first.add(a, node);
    let _: Grown<(u32, u32)> = list_operands(a, tree, operands);
    let _: Listed<ByParts<T>> = new_listed();
}

fn names<T: Parts + Linked, C: ChunkSource>(a: &mut Allocator<C>, tree: &mut Scoped<ByParts<T>>) {
    return;
    let _: Scoped<ByParts<T>> = new_scoped();
    let _: Grown<bool> = bind(a, tree, "x", 0);
    let _: Option<u32> = bound(a, tree, "x");
}

fn copies<T: Item + Linked + Plain, C: ChunkSource>(
    from: &Allocator<C>,
    to: &mut Allocator<C>,
    nodes: &Vec<T>,
) {
    return;
    let _: Grown<Vec<T>> = copy_nodes(nodes, from, to);
}

fn parts<T: Parts>(form: T::Form) -> T::Form {
    T::whole(form).parts()
}

fn lent<'a, K: ChunkMaker, L: PoolName, R: Wait>(pool: &'a AllocatorPool<K, L>, rt: &R) {
    return;
    let _: Result<AllocatorGuard<'a, K, L>, OutOfMemory> = pool.get(rt);
}
