// Nodes, and lists of nodes that are being built.
ghost use Rattle.std.specs.Prelude.{◌≡◌, ℕ, ◌+◌, ◌*◌, ◌^◌, ◌≤◌, List, [], ◌∷◌, ◌++◌, length, None, IfOk, OnOk, OnErr};
ghost use Rattle.arena_chunks.specs.Memory.{Memory};
ghost use Rattle.arena_chunks.specs.Frame.{Frame};
ghost use Rattle.arena_items.specs.Asks.{Fresh, room_ask, solid};
ghost use Rattle.arena_items.specs.Room.{capacity_after};
ghost use Rattle.arena_vec.specs.Changes.{Grows};
ghost use Rattle.arena_vec.specs.Growth.{amortised_growth};
ghost use Rattle.arena_vec.specs.Vecs.{IsVecIn, vec_list};
ghost use Rattle.tree_rules.specs.Trees.{Expr};
ghost use Rattle.tree_nodes.specs.TreesAt.{node_item, kids_of, no_kids, IsPlaced};
ghost use Rattle.tree_nodes.specs.Subtrees.{Subtree, OfExpr, IsTreePlaced, IsRowBuilt, AreGathered, IsRowRead};
ghost use Rattle.tree_nodes.specs.NodeForms.{number_node, no_text};
ghost use Rattle.tree_nodes.specs.Layouts.{ListOf, LongerList, ListFor, IsDoubled};
ghost use Rattle.tree_nodes.specs.Asking.{AsksFor, list_ask, list_growth};
ghost use Rattle.tree_nodes.specs.Spending.{Spends, SpendsOnMore, error_of, node_cost, credit};

use crate::clone_list::roomy;
use crate::node::{Kind, Node};
use arena_chunks::{Allocator, Block, ChunkSource, Str};
use arena_items::Grown;
use arena_vec::Vec;
use arena_vec::laws::{growth_costs, growth_rule, vector_costs};
use std::slice;

/// The node of a number.
#[inline(always)]
pub fn number(n: u64) -> Node
    ensures kind { result.kind ≡ Kind.Num }
    ensures number { result.number ≡ n }
    ensures node { result ≡ number_node n }
{
    Node {
        kind: Kind::Num,
        number: n,
        text: Str {
            block: Block::empty(1),
        },
        kids: Block::empty(8),
        len: 0,
        cap: 0,
    }
}

/// The node of a name.
#[inline(always)]
pub fn named(text: Str) -> Node
    ensures kind { result.kind ≡ Kind.Name }
    ensures text { result.text ≡ text }
    ensures rest { (result.number ≡ 0) × (kids_of result ≡ no_kids) }
{
    Node {
        kind: Kind::Name,
        number: 0,
        text,
        kids: Block::empty(8),
        len: 0,
        cap: 0,
    }
}

/// The node of a kind that has these children.
#[inline(always)]
pub fn with_kids(kind: Kind, list: Vec<Node>) -> Node
    ensures kind { result.kind ≡ kind }
    ensures kids { kids_of result ≡ list }
    ensures rest { (result.number ≡ 0) × (result.text ≡ no_text) }
{
    Node {
        kind,
        number: 0,
        text: Str {
            block: Block::empty(1),
        },
        kids: list.raw.block,
        len: list.raw.len,
        cap: list.raw.cap,
    }
}

// Appends a node as `Vec::push` does. By reference, the node is copied once, straight to its place.
#[inline(always)]
fn push<C: ChunkSource>(a: &mut Allocator<C>, list: &mut Vec<Node>, node: &Node) -> Grown<()>
    requires { IsVecIn node_item a.old.memory list.old }
    ensures { let growth = amortised_growth 88 list.old.raw.cap (list.old.raw.len + 1) in
        let nodes = vec_list node_item a.old.memory list.old ++ node.now ∷ [] in
        Grows node_item a.old a.new list.old growth nodes list.new result }
{
    list.extend_from_slice(a, slice::from_ref(node))
}

/// Appends a node to a list that is being built, by the growth rule of vectors: a full list is replaced by one of twice
/// its capacity, and at first by one of one node. Costs at most 359 bytes besides what the list saved.
///
/// # Errors
///
/// `AllocErr` where that list has no place, `OutOfMemory` where memory outside the chunks runs out. The list is unchanged.
#[inline(always)]
pub fn push_node<C: ChunkSource>(
    a: &mut Allocator<C>,
    list: &mut Vec<Node>,
    node: &Node,
) -> Grown<()>
    requires held { IsVecIn node_item a.old.memory list.old }
    requires few { list.old.raw.len ≤ 2 ^ 24 }
    ensures row { (ts : List Subtree) (t : Subtree) (old one : Memory) → IsRowBuilt ts old one list.old
        → IsTreePlaced t one a.old.memory node.now
        → OnOk result (IsRowBuilt (ts ++ t ∷ []) old a.new.memory list.new) }
    ensures spends { Spends (LongerList list.old.raw.len list.old.raw.cap 1) node_cost (credit list.old)
        (credit list.new) a.old a.new (error_of result) }
    ensures asks { AsksFor (room_ask 88 8 (solid list.old.raw.block) (amortised_growth 88 list.old.raw.cap (list.old.raw.len + 1)))
        (solid list.old.raw.block) (λ u. list.new.raw.block) a.old a.new result }
    ensures held { OnOk result (IsVecIn node_item a.new.memory list.new) }
    ensures grown { OnOk result (list.new.raw.cap
        ≡ capacity_after (amortised_growth 88 list.old.raw.cap (list.old.raw.len + 1)) list.old.raw.cap) }
    ensures len { OnOk result (list.new.raw.len ≡ list.old.raw.len + 1) }
    ensures cap { IsDoubled 1 list.old.raw.cap → OnOk result (IsDoubled 1 list.new.raw.cap) }
    ensures err { OnErr result ((list.new ≡ list.old) × (a.new.memory ≡ a.old.memory)) }
    ensures frame { Frame a.old.memory a.new.memory (list.old.raw.block ∷ []) (list.new.raw.block ∷ []) }
{
    growth_rule();
    growth_costs();
    vector_costs::<Node, ()>();
    // For the proof: the least alignment is 1.
    a.known();
    push(a, list, node)
}

/// Wraps a node in one of a kind, as its only child. Asks for a list of one node.
///
/// # Errors
///
/// As `push_node`. The node is unchanged.
pub fn wrap<C: ChunkSource>(a: &mut Allocator<C>, kind: Kind, node: &mut Node) -> Grown<()>
    ensures tree { (e : Expr) (old : Memory) → IsPlaced e old a.old.memory node.old
        → OnOk result ((node.new.kind ≡ kind) × IsRowBuilt (OfExpr e ∷ []) old a.new.memory (kids_of node.new)
        × (node.new.number ≡ 0) × (node.new.text ≡ no_text)) }
    ensures spends { Spends (ListOf 1) node_cost 0 0 a.old a.new (error_of result) }
    ensures asks { AsksFor (Fresh 88 8) None (λ u. (kids_of node.new).raw.block) a.old a.new result }
    ensures err { OnErr result ((node.new ≡ node.old) × (a.new.memory ≡ a.old.memory)) }
{
    let mut list = Vec::new_in();
    push_node(a, &mut list, node)?;
    *node = with_kids(kind, list);
    Ok(())
}

// A list of these nodes, with this room.
#[inline(never)]
fn list_of<C: ChunkSource>(a: &mut Allocator<C>, nodes: &[Node], room: u32) -> Grown<Vec<Node>>
    requires { length nodes.now ≤ room }
    ensures row { (ts : List Subtree) (old : Memory) → AreGathered ts old a.old.memory nodes.now
        → IfOk result (IsRowBuilt ts old a.new.memory) }
    ensures held { IfOk result (IsVecIn node_item a.new.memory) }
    ensures spends { Spends (ListOf room) (128 * room) 0 0 a.old a.new (error_of result) }
    ensures asks { AsksFor (list_ask room) None (λ v. v.raw.block) a.old a.new result }
    ensures len { IfOk result (λ v. v.raw.len ≡ length nodes.now) }
    ensures cap { IfOk result (λ v. v.raw.cap ≡ room) }
{
    growth_rule();
    let mut list = roomy(a, room)?;
    match list.extend_from_slice(a, nodes) {
        Ok(()) => Ok(list),
        Err(_) => unreachable!(),
    }
}

// A list with these nodes behind its own: the list itself where it has room, or a longer one.
#[cold]
#[inline(never)]
fn longer<C: ChunkSource>(a: &mut Allocator<C>, list: Vec<Node>, nodes: &[Node]) -> Grown<Vec<Node>>
    requires held { IsVecIn node_item a.old.memory list }
    requires some { 1 ≤ length nodes.now }
    requires few { list.raw.len + length nodes.now ≤ 2 ^ 24 }
    ensures row { (ts : List Subtree) (old : Memory) → IsRowRead ts old a.old.memory list nodes.now
        → IfOk result (IsRowBuilt ts old a.new.memory) }
    ensures held { IfOk result (IsVecIn node_item a.new.memory) }
    ensures spends { SpendsOnMore (LongerList list.raw.len list.raw.cap (length nodes.now)) (node_cost * length nodes.now)
        (credit list) a.old a.new result }
    ensures asks { AsksFor (room_ask 88 8 (solid list.raw.block) (amortised_growth 88 list.raw.cap (list.raw.len + length nodes.now)))
        (solid list.raw.block) (λ v. v.raw.block) a.old a.new result }
    ensures grown { IfOk result (λ v. v.raw.cap
        ≡ capacity_after (amortised_growth 88 list.raw.cap (list.raw.len + length nodes.now)) list.raw.cap) }
    ensures len { IfOk result (λ v. v.raw.len ≡ list.raw.len + length nodes.now) }
    ensures cap { (power : ℕ) → length nodes.now ≡ 2 ^ power → IsDoubled (length nodes.now) list.raw.cap
        → IfOk result (λ v. IsDoubled (length nodes.now) v.raw.cap) }
{
    growth_rule();
    growth_costs();
    vector_costs::<Node, ()>();
    // For the proof: the least alignment is 1.
    a.known();
    let mut all = list;
    match all.extend_from_slice(a, nodes) {
        Ok(()) => Ok(all),
        Err(e) => Err(e),
    }
}

/// A list with these nodes behind its own. A list with no storage is replaced by one with this room, and another without
/// room for them by the growth rule of vectors. Costs at most 359 bytes a node besides what the list saved.
///
/// # Errors
///
/// As `push_node`.
#[inline(always)]
pub fn with_more<C: ChunkSource>(
    a: &mut Allocator<C>,
    list: Vec<Node>,
    nodes: &[Node],
    room: u32,
) -> Grown<Vec<Node>>
    requires held { IsVecIn node_item a.old.memory list }
    requires some { 1 ≤ length nodes.now }
    requires few { list.raw.len + length nodes.now ≤ 2 ^ 24 }
    requires room { (length nodes.now ≤ room) × (room ≤ 2 * length nodes.now) }
    ensures row { (ts : List Subtree) (old : Memory) → IsRowRead ts old a.old.memory list nodes.now
        → IfOk result (IsRowBuilt ts old a.new.memory) }
    ensures held { IfOk result (IsVecIn node_item a.new.memory) }
    ensures spends { SpendsOnMore (ListFor list.raw.len list.raw.cap (length nodes.now) room) (node_cost * length nodes.now)
        (credit list) a.old a.new result }
    ensures asks { AsksFor (room_ask 88 8 (solid list.raw.block) (list_growth list.raw.cap (list.raw.len + length nodes.now) room))
        (solid list.raw.block) (λ v. v.raw.block) a.old a.new result }
    ensures grown { IfOk result (λ v. v.raw.cap
        ≡ capacity_after (list_growth list.raw.cap (list.raw.len + length nodes.now) room) list.raw.cap) }
    ensures len { IfOk result (λ v. v.raw.len ≡ list.raw.len + length nodes.now) }
    ensures cap { (some many : ℕ) → length nodes.now ≡ 2 ^ some → room ≡ 2 ^ many → IsDoubled (length nodes.now) list.raw.cap
        → IfOk result (λ v. IsDoubled (length nodes.now) v.raw.cap) }
{
    if list.capacity() == 0 {
        return list_of(a, nodes, room);
    }
    longer(a, list, nodes)
}

/// The node of a definition: its name, and its value as the only child.
#[inline(always)]
pub fn let_node(text: Str, list: Vec<Node>) -> Node
    ensures kind { result.kind ≡ Kind.Let }
    ensures text { result.text ≡ text }
    ensures kids { kids_of result ≡ list }
    ensures rest { result.number ≡ 0 }
{
    Node {
        kind: Kind::Let,
        number: 0,
        text,
        kids: list.raw.block,
        len: list.raw.len,
        cap: list.raw.cap,
    }
}
