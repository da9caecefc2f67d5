// Folding of trees in place.
ghost use Rattle.std.specs.Prelude.{◌≡◌, ℕ, [], ◌∷◌, IfSome};
ghost use Rattle.arena_items.specs.Room.{SamePlaces};
ghost use Rattle.arena_vec.specs.Vecs.{IsVecIn, vec_list};
ghost use Rattle.arena_tree.specs.NodeForms.{number_node};
ghost use Rattle.arena_tree.specs.TreesAt.{node_item, kids_of, kids_in, AreLean};
ghost use Rattle.arena_tree.specs.Subtrees.{Subtree, lists_at, texts_at, has_kids};
ghost use Rattle.arena_tree.specs.FoldingParts.{CanFold, CanFoldRow, IsWhole, IsFolded, FoldsRow, IsRule, IsSubtree, IsNegation, IsTotalNode, capped, added, total_of, total_in, numbers_in};

use arena_chunks::{Allocator, ChunkSource};
use arena_kinds::ReplaceWith;
use arena_vec::Vec;
use tree_nodes::{Kind, Node, kids, number};

// The total with one more number in front, or `None` where it exceeds 64 bits.
fn one_more(product: bool, total: Option<u64>, n: u64) -> Option<u64>
    ensures { (t : ℕ) → total ≡ capped t → result ≡ capped (added product n t) }
{
    if product {
        if n == 0 {
            return Some(0);
        }
        match total {
            Some(t) => t.checked_mul(n),
            None => None,
        }
    } else {
        match total {
            Some(t) => t.checked_add(n),
            None => None,
        }
    }
}

// The sum or the product of no numbers.
fn empty_total(product: bool) -> u64
    ensures { result ≡ total_of product [] }
{
    if product { 1 } else { 0 }
}

// The sum or the product of nodes that are all numbers, if it fits 64 bits.
fn total<C: ChunkSource>(a: &Allocator<C>, list: Vec<Node>, product: bool) -> Option<u64>
    requires { IsVecIn node_item a.now.memory list }
    ensures { result ≡ total_in (total_of product) (numbers_in (vec_list node_item a.now.memory list)) }
{
    let mut total = Some(empty_total(product));
    let mut i = list.len();
    while 0 < i {
        i -= 1;
        let kid = list.get(a, i);
        match kid.kind {
            Kind::Num => total = one_more(product, total, kid.number),
            _ => return None,
        }
    }
    total
}

// The node of the total of a node's children, or `None` where there is no total.
fn total_node<C: ChunkSource>(a: &Allocator<C>, node: Node, product: bool) -> Option<Node>
    requires { IsVecIn node_item a.now.memory (kids_of node) }
    ensures total { IsTotalNode (total_in (total_of product) (numbers_in (kids_in a.now.memory node))) result }
    ensures number { IfSome result (λ n. n ≡ number_node n.number) }
{
    match total(a, kids(a, node), product) {
        Some(n) => Some(number(n)),
        None => None,
    }
}

// The node that a negation negates.
fn only_kid<C: ChunkSource>(a: &Allocator<C>, node: Node) -> Node
    requires { IsNegation a.now.memory node }
    ensures { kids_in a.now.memory node ≡ result ∷ [] }
{
    let list = kids(a, node);
    list.get(a, 0)
}

// The node that replaces one whose children are folded, by the rule for its kind, or `None` where it stays.
fn rule<C: ChunkSource>(a: &Allocator<C>, node: Node) -> Option<Node>
    requires { IsSubtree a.now.memory node }
    ensures rule { IsRule a.now.memory node result }
    ensures lean { AreLean a.now.memory (node ∷ []) → IfSome result (λ by. AreLean a.now.memory (by ∷ [])) }
{
    match node.kind {
        Kind::Neg => {
            let kid = only_kid(a, node);
            match kid.kind {
                Kind::Neg => Some(only_kid(a, kid)),
                _ => None,
            }
        }
        Kind::Sum => total_node(a, node, false),
        Kind::Prod => total_node(a, node, true),
        _ => None,
    }
}

fn has_kids(kind: Kind) -> bool
    ensures { result ≡ has_kids kind }
{
    match kind {
        Kind::Num => false,
        Kind::Name => false,
        _ => true,
    }
}

// Replaces a node.
fn replace(node: &mut Node, by: Node)
    ensures { node.new ≡ by }
{
    node.replace_with(|_| by);
}

// Folds a node, children first, and counts the nodes to which a rule was applied.
#[cycle(fold)]
fn fold_node<C: ChunkSource>(a: &mut Allocator<C>, node: &mut Node, room: u64) -> u64
    requires { CanFold a.old.memory node.old room }
    ensures folded { (t : Subtree) → IsWhole t a.old.memory node.old
        → IsFolded t (lists_at t a.old.memory node.old) (texts_at t a.old.memory node.old) a.old.memory a.new.memory node.new result }
    ensures lean { AreLean a.old.memory (node.old ∷ []) → AreLean a.new.memory (node.new ∷ []) }
    ensures places { SamePlaces a.old a.new }
{
    if !has_kids(node.kind) {
        return 0;
    }
    let list = kids(a, *node);
    let count = fold_row(a, list, room);
    match rule(a, *node) {
        Some(by) => {
            replace(node, by);
            count + 1
        }
        None => count,
    }
}

// Folds the nodes of a list, from the last one on.
#[cycle(fold)]
pub(crate) fn fold_row<C: ChunkSource>(a: &mut Allocator<C>, list: Vec<Node>, room: u64) -> u64
    requires { CanFoldRow a.old.memory list room }
    ensures folded { FoldsRow a.old.memory a.new.memory list result }
    ensures lean { AreLean a.old.memory (vec_list node_item a.old.memory list)
        → AreLean a.new.memory (vec_list node_item a.new.memory list) }
    ensures places { SamePlaces a.old a.new }
{
    let mut count = 0;
    let mut i = list.len();
    while 0 < i {
        i -= 1;
        let mut kid = list.get(a, i);
        count += fold_node(a, &mut kid, room - 1);
        let mut slot = list;
        slot.set(a, i, kid);
    }
    count
}
