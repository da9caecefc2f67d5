// The growth rule, calls within a text's room, and what is UTF-8, as facts. A law is a call that does nothing: made in
// a body, it gives its facts there.
ghost use Rattle.std.specs.Prelude.{◌≡◌, ℕ, ◌+◌, ◌*◌, ◌^◌, ◌<◌, ◌≤◌, List, [], ◌∷◌, ◌++◌, length, max, replicate, encode_utf8, slice_index, slice_set, IsUtf8, Result, Ok, Err, IsOk};
ghost use Rattle.std.specs.Char.{IsScalar};
ghost use Rattle.arena_chunks.specs.Memory.{Memory};
ghost use Rattle.arena_chunks.specs.Source.{View};
ghost use Rattle.arena_items.specs.Room.{SamePlaces, capacity_after};
ghost use Rattle.arena_text.specs.Growth.{amortised_growth, new_growth, asked_by, IsRoomFor};
ghost use Rattle.arena_text.specs.Builders.{IsBuilderIn, builder_bytes};
ghost use Rattle.arena_text.specs.Changes.{Grows, Makes};
ghost use Rattle.arena_text.specs.declared.text.StringBuilder.{StringBuilder};
ghost use Rattle.arena_items.specs.declared.room.AllocError.{AllocError};
ghost use Rattle.arena_items.specs.declared.room.Growth.{Growth};

/// When a reserve does nothing, when it overflows, and what capacity it leads to otherwise: the capacity plus the
/// greatest of what is added, the capacity and 8, or what is required if that exceeds 2^63 - 1. The first capacity is
/// what is added, at least 8.
#[tactic(auto, unfolding(crate::specs::Growth::growth_to, crate::specs::Growth::amortised))]
pub fn growth_rule()
    ensures stays { (cap len additional : ℕ) → len + additional ≤ cap
        → amortised_growth cap len additional ≡ Growth.Stays }
    ensures overflows { (cap len additional : ℕ) → cap < len + additional → 2 ^ 63 ≤ len + additional
        → amortised_growth cap len additional ≡ Growth.Overflows }
    ensures grows { (cap len additional : ℕ) → cap < len + additional → len ≤ cap
        → cap + max additional (max cap 8) < 2 ^ 63
        → amortised_growth cap len additional ≡ Growth.GrowsTo (cap + max additional (max cap 8)) }
    ensures required { (cap len additional : ℕ) → cap < len + additional → len + additional < 2 ^ 63
        → 2 ^ 63 ≤ cap + max additional (max cap 8)
        → amortised_growth cap len additional ≡ Growth.GrowsTo (len + additional) }
    ensures first { (additional : ℕ) → 0 < additional → additional < 2 ^ 63
        → amortised_growth 0 0 additional ≡ Growth.GrowsTo (max additional 8) }
{}

/// The room of a new text: for 0 bytes no block is placed, and more than 2^63 - 1 overflow.
#[tactic(auto, unfolding(crate::specs::Growth::growth_to))]
pub fn room_rule()
    ensures none { new_growth 0 ≡ Growth.Stays }
    ensures some { (room : ℕ) → 0 < room → room < 2 ^ 63 → new_growth room ≡ Growth.GrowsTo room }
    ensures overflows { (room : ℕ) → 2 ^ 63 ≤ room → new_growth room ≡ Growth.Overflows }
{}

/// If a text has room for at most twice its bytes plus 8, as one without room does, this stays so when bytes are added.
/// And if all blocks that it asked for, one after another, have together at most twice the bytes of the last, this
/// stays so as long as that has less than 2^62 bytes.
#[tactic(auto, unfolding(crate::specs::Growth::growth_to, crate::specs::Growth::amortised))]
pub fn pushed_rule()
    ensures text { (old new : View) (t u : StringBuilder) (n : ℕ) (list : List ℕ) → IsBuilderIn old.memory t
        → IsRoomFor t.len t.cap → length list ≡ t.len + n
        → Grows old new t (amortised_growth t.cap t.len n) list u (Ok tt) → IsRoomFor u.len u.cap }
    ensures room { (cap len n : ℕ) → len ≤ cap → IsRoomFor len cap
        → IsRoomFor (len + n) (capacity_after (amortised_growth cap len n) cap) }
    ensures asked { (cap len n asked : ℕ) → len ≤ cap → asked ≤ 2 * cap
        → capacity_after (amortised_growth cap len n) cap < 2 ^ 62
        → asked + asked_by (amortised_growth cap len n)
        ≤ 2 * capacity_after (amortised_growth cap len n) cap }
{}

/// If there is room for n bytes, a call that adds n bytes isn't refused, and takes no memory. Together with the call
/// before it, which made the room, it is one call.
pub fn within_room()
    ensures ok { (old new : View) (t u : StringBuilder) (n : ℕ) (list : List ℕ)
        (result : Result (Unit {0}) AllocError) → t.len + n ≤ t.cap
        → Grows old new t (amortised_growth t.cap t.len n) list u result → IsOk result × SamePlaces old new }
    ensures never { (old new : View) (t u : StringBuilder) (n : ℕ) (list : List ℕ) (e : AllocError)
        → t.len + n ≤ t.cap → ¬ (Grows old new t (amortised_growth t.cap t.len n) list u (Err e)) }
    ensures made { (old mid new : View) (t u : StringBuilder) (room n : ℕ) (first list : List ℕ)
        → Makes old mid room first (Ok t) → t.len + n ≤ t.cap
        → Grows mid new t (amortised_growth t.cap t.len n) list u (Ok tt) → Makes old new room list (Ok u) }
    ensures grown { (old mid new : View) (t u v : StringBuilder) (growth : Growth) (n : ℕ)
        (first list : List ℕ) (result : Result (Unit {0}) AllocError)
        → Grows old mid t growth first u (Ok tt) → u.len + n ≤ u.cap
        → Grows mid new u (amortised_growth u.cap u.len n) list v result
        → Grows old new t growth list v result }
{}

/// The length of a text is the number of its bytes.
#[tactic(auto, using(crate::proofs::TextLemmas::counted))]
pub fn length_rule()
    ensures { (memory : Memory) (t : StringBuilder) → IsBuilderIn memory t
        → t.len ≡ length (builder_bytes memory t) }
{}

/// The empty list is UTF-8; so are the bytes of a character, ASCII bytes, two texts one after the other, and a text in
/// which one ASCII byte is replaced by another.
#[tactic(auto, using(crate::proofs::CharLemmas::utf8))]
pub fn utf8_rule()
    ensures none { IsUtf8 [] }
    ensures character { (c : ℕ) → IsScalar c → IsUtf8 (encode_utf8 c) }
    ensures ascii { (byte n : ℕ) → byte < 128 → IsUtf8 (replicate n byte) }
    ensures joined { (one two : List ℕ) → IsUtf8 one → IsUtf8 two → IsUtf8 (one ++ two) }
    ensures set { (bytes : List ℕ) (i byte : ℕ) → IsUtf8 bytes → i < length bytes → slice_index bytes i < 128
        → byte < 128 → IsUtf8 (slice_set bytes i byte) }
{}
