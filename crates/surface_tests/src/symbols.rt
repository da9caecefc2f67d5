// Public items of interned texts and scopes.
use arena_chunks::{Allocator, ChunkSource, Str};
use arena_items::Grown;
use arena_symbols::{MOST_PAIRS, MOST_SCOPES, MOST_TEXTS, Scopes, Symbols};

fn changed<C: ChunkSource>(symbols: &mut Symbols, scopes: &mut Scopes, a: &mut Allocator<C>) {
    return;
    let _: Symbols = Symbols::new_in();
    let _: Grown<u32> = symbols.intern(a, "a");
    let _: Scopes = Scopes::new_in();
    let _: Grown<()> = scopes.enter(a);
    let _: bool = scopes.leave(a);
    let _: Grown<bool> = scopes.define(a, 1u32, 2u32);
}

fn looks<C: ChunkSource>(symbols: &Symbols, scopes: &Scopes, a: &Allocator<C>) {
    return;
    let _: fn(&Symbols) -> u32 = Symbols::len;
    let _: Option<u32> = symbols.find(a, "a");
    let _: Str = symbols.text(a, 1u32);
    let _: [u32; 3] = [MOST_TEXTS, MOST_SCOPES, MOST_PAIRS];
    let _: fn(&Scopes) -> u32 = Scopes::depth;
    let _: Option<u32> = scopes.lookup(a, 1u32);
    let _: bool = scopes.in_last(a, 1u32);
}
