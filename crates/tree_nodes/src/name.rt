// Names in an arena.
ghost use Rattle.std.specs.Prelude.{◌≡◌, ◌+◌, ◌^◌, ◌≤◌, [], ◌∷◌, length, None, IfOk, OnOk, OnErr};
ghost use Rattle.arena_chunks.specs.Frame.{Frame};
ghost use Rattle.arena_items.specs.Asks.{Fresh};
ghost use Rattle.arena_items.specs.Denied.{TextOf};
ghost use Rattle.arena_items.specs.Values.{IsTextIn, text_bytes};
ghost use Rattle.tree_rules.specs.Trees.{Name};
ghost use Rattle.tree_nodes.specs.TreesAt.{IsPlaced};
ghost use Rattle.tree_nodes.specs.Asking.{AsksFor};
ghost use Rattle.tree_nodes.specs.Spending.{Spends, error_of};

use crate::block::place_block;
use crate::build::named;
use crate::node::Node;
use arena_chunks::{Allocator, ChunkSource, Str};
use arena_items::Grown;
use arena_place::Layout;

// Places bytes.
#[inline(always)]
fn place_text<C: ChunkSource>(a: &mut Allocator<C>, bytes: &[u8]) -> Grown<Str>
    requires { length bytes.now + 64 ≤ 2 ^ 63 }
    ensures held { IfOk result (IsTextIn a.new.memory) }
    ensures text { IfOk result (λ s. text_bytes a.new.memory s ≡ bytes.now) }
    ensures frame { IfOk result (λ s. Frame a.old.memory a.new.memory [] (s.block ∷ [])) }
    ensures spends { Spends (TextOf (length bytes.now)) (length bytes.now) 0 0 a.old a.new (error_of result) }
    ensures asks { AsksFor (Fresh (length bytes.now) 1) None (λ s. s.block) a.old a.new result }
{
    let Some(layout) = Layout::new(bytes.len() as u64, 1) else {
        unreachable!();
    };
    let block = place_block(a, layout)?;
    a.write(block, 0, bytes);
    Ok(Str { block })
}

/// Places a name.
///
/// # Errors
///
/// `AllocErr` where its bytes have no place, `OutOfMemory` where memory outside the chunks runs out.
pub fn place_name<C: ChunkSource>(a: &mut Allocator<C>, name: &[u8]) -> Grown<Str>
    requires { length name.now ≤ 2 ^ 24 }
    ensures held { IfOk result (IsTextIn a.new.memory) }
    ensures text { IfOk result (λ s. text_bytes a.new.memory s ≡ name.now) }
    ensures frame { IfOk result (λ s. Frame a.old.memory a.new.memory [] (s.block ∷ [])) }
    ensures spends { Spends (TextOf (length name.now)) (length name.now) 0 0 a.old a.new (error_of result) }
    ensures asks { AsksFor (Fresh (length name.now) 1) None (λ s. s.block) a.old a.new result }
{
    place_text(a, name)
}

/// Places a name, and writes its node.
///
/// # Errors
///
/// As `place_name`. The node is unchanged.
#[tactic(auto, using(crate::proofs::BuildLemmas::name_placed))]
pub fn name_node<C: ChunkSource>(a: &mut Allocator<C>, name: &[u8], node: &mut Node) -> Grown<()>
    requires { length name.now ≤ 2 ^ 24 }
    ensures tree { OnOk result (IsPlaced (Name name.now) a.old.memory a.new.memory node.new) }
    ensures spends { Spends (TextOf (length name.now)) (length name.now) 0 0 a.old a.new (error_of result) }
    ensures asks { AsksFor (Fresh (length name.now) 1) None (λ u. node.new.text.block) a.old a.new result }
    ensures err { OnErr result (node.new ≡ node.old) }
{
    let text = place_text(a, name)?;
    *node = named(text);
    Ok(())
}

/// A copy of a text in another arena.
///
/// # Errors
///
/// As `place_name`, of the other arena.
pub fn clone_text<C: ChunkSource, D: ChunkSource>(
    from: &Allocator<C>,
    to: &mut Allocator<D>,
    text: Str,
) -> Grown<Str>
    requires { IsTextIn from.now.memory text }
    ensures held { IfOk result (IsTextIn to.new.memory) }
    ensures text { IfOk result (λ s. text_bytes to.new.memory s ≡ text_bytes from.now.memory text) }
    ensures frame { IfOk result (λ s. Frame to.old.memory to.new.memory [] (s.block ∷ [])) }
    ensures spends { Spends (TextOf (length (text_bytes from.now.memory text)))
        (length (text_bytes from.now.memory text)) 0 0 to.old to.new (error_of result) }
    ensures asks { AsksFor (Fresh (length (text_bytes from.now.memory text)) 1) None (λ s. s.block) to.old to.new result }
{
    // For the proof: the arena's state is valid, and the text has a layout.
    from.known();
    place_text(to, from.read(text.block))
}
