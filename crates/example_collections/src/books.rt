// A book that belongs to one thread.
ghost use Rattle.std.specs.Prelude.{◌≡◌, ◌^◌, ◌≤◌, None, IfOk, IfErr, IfSome};

use crate::borrow::read_back;
use arena_items::Item;
use arena_pool::laws::{events, puts};
use arena_pool::{Book, ChunkMaker, PoolErr};

/// Places a value in an arena of a book and reads it back, or returns `None` if there is no place for it. The arena
/// is given back: a book without a limit stores it, and one with a limit drops an arena that exceeds it. As many are
/// lent as before.
///
/// # Errors
///
/// The book has no arena to lend. It is unchanged.
#[tactic(auto, using(arena_pool::proofs::Layers::event_laws))]
pub fn through_book<T: Item, K: ChunkMaker>(
    book: &mut Book<K>,
    value: T,
) -> Result<Option<T>, PoolErr>
    requires { T.SIZE ≤ 2 ^ 24 }
    ensures value { IfOk result (λ found. IfSome found (λ v. v ≡ value)) }
    ensures lent { book.new.lent ≡ book.old.lent }
    ensures kind { book.new.kind ≡ book.old.kind }
    ensures limit { book.new.limit ≡ book.old.limit }
    ensures kept { book.old.limit ≡ None → book.new.given_up ≡ book.old.given_up }
    ensures err { IfErr result (λ e. book.new ≡ book.old) }
{
    events();
    puts();
    let (mut arena, id) = book.take()?;
    let found = read_back(&mut arena, value);
    book.store(arena, id);
    Ok(found)
}
