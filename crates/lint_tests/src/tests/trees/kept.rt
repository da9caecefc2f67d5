// A tree in an arena of its own, in which it is always held.
ghost use Rattle.arena_tree.specs.Given.{IsTreeIn};

use super::super::Rt;
use arena_chunks::{Allocator, ChunkSource};
use arena_tree::{Tree, TreeErr};
use short_bytes::Bytes;
use std::marker::Model;
use std::process::Abort;

#[derive(Drop)]
pub(super) struct KeptTree<C: ChunkSource> {
    a: Allocator<C>,
    tree: Tree,
}

impl<C: ChunkSource> Model for KeptTree<C> {
    ghost Value = { Unit {0} };

    ghost view = { λ s. tt };

    ghost invariant = { λ s. IsTreeIn s.a.memory s.tree };
}

impl<C: ChunkSource> KeptTree<C> {
    pub(super) fn of(rt: &impl Abort, mut a: Allocator<C>, src: &[u8]) -> KeptTree<C> {
        assert!(rt; src.len() <= 1 << 24);
        let tree = Tree::parse(&mut a, src).ok().expect(rt, "a program");
        KeptTree { a, tree }
    }

    // Folds the tree, and returns the number of folded nodes.
    pub(super) fn fold(&mut self) -> u64 {
        self.tree.fold(&mut self.a)
    }

    // Returns why the tree can't be copied to another arena.
    pub(super) fn refused_in<D: ChunkSource>(&self, b: &mut Allocator<D>) -> Option<TreeErr> {
        self.tree.clone_in(&self.a, b).err()
    }

    pub(super) fn copied<D: ChunkSource>(
        &self,
        rt: &impl Abort,
        mut b: Allocator<D>,
    ) -> KeptTree<D> {
        let tree = self
            .tree
            .clone_in(&self.a, &mut b)
            .ok()
            .expect(rt, "a copy");
        KeptTree { a: b, tree }
    }

    pub(super) fn text(&self, rt: &impl Rt) -> Bytes {
        self.tree
            .print(rt.alloc(), &self.a)
            .ok()
            .expect(rt, "memory")
    }
}
