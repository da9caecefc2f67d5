// Callers of texts.
ghost use Rattle.std.specs.Prelude.{◌≡◌, ◌+◌, ◌*◌, ◌<◌, ◌≤◌, ◌++◌, ◌⊎◌, [], ◌∷◌, length, replicate, chars, encode_utf8, Err, IsOk, IfOk, IfErr, IsUtf8};
ghost use Rattle.std.specs.Result.{result_map_both};
ghost use Rattle.std.specs.Fmt.{decimal};
ghost use Rattle.arena_rules.specs.State.{used_bytes};
ghost use Rattle.arena_chunks.specs.Frame.{Frame, AreBlocksApart};
ghost use Rattle.arena_items.specs.Room.{SamePlaces};
ghost use Rattle.arena_text.specs.Growth.{amortised_growth};
ghost use Rattle.arena_text.specs.Builders.{IsBuilderIn, builder_bytes};
ghost use Rattle.arena_text.specs.Changes.{Grows, Makes};
ghost use Rattle.example_collections.specs.Texts.{IsRow, IsRefusedRow, PushesRow};

use arena_chunks::{Allocator, ChunkSource};
use arena_items::laws::frame_law;
use arena_items::{AllocError, Grown};
use arena_text::StringBuilder;
use arena_text::laws::{pushed_rule, utf8_rule, within_room};
use std::alloc::Global;

/// Makes a text of an ASCII byte, `n` times. Room is reserved once, and only that can fail.
///
/// # Errors
///
/// Those of `with_capacity_in`.
pub fn rule_of<C: ChunkSource>(byte: u8, n: u64, a: &mut Allocator<C>) -> Grown<StringBuilder>
    requires { byte < 128 }
    ensures { Makes a.old a.new n (replicate n byte) result }
{
    within_room();
    let mut text = StringBuilder::with_capacity_in(n, a)?;
    text.push_ascii_byte_repeat(a, byte, n)?;
    Ok(text)
}

/// Makes a text of an ASCII byte, `n` times, by one push for each. Its capacity is at most eight more than twice its
/// length.
///
/// # Errors
///
/// Those of `push_ascii_byte`, for one of the bytes. The text so far stays in the arena.
#[tactic(auto, using(crate::proofs::RowLemmas::row_none))]
pub fn row_of<C: ChunkSource>(byte: u8, n: u64, a: &mut Allocator<C>) -> Grown<StringBuilder>
    requires { byte < 128 }
    ensures row { IfOk result (IsRow a.old a.new byte n) }
    ensures pushes { IfOk result (PushesRow a.old a.new byte n) }
    ensures refused { IfErr result (IsRefusedRow a.old a.new byte n) }
    ensures beside { Frame a.old.memory a.new.memory [] [] }
{
    pushed_rule();
    let mut text = StringBuilder::new_in();
    for _i in 0..n {
        text.push_ascii_byte(a, byte)?;
    }
    Ok(text)
}

/// Appends a line: a text and a line feed. Room is reserved once, so an error leaves everything unchanged.
///
/// # Errors
///
/// Those of `reserve`.
pub fn push_line<C: ChunkSource>(
    text: &mut StringBuilder,
    a: &mut Allocator<C>,
    s: &str,
) -> Grown<()>
    requires { IsBuilderIn a.old.memory text.old }
    ensures { let growth = amortised_growth text.old.cap text.old.len (length s.now + 1) in
        let list = builder_bytes a.old.memory text.old ++ s.now ++ 10 ∷ [] in
        Grows a.old a.new text.old growth list text.new result }
{
    within_room();
    text.reserve(a, s.len() as u64 + 1)?;
    text.push_str(a, s)?;
    text.push_ascii_byte(a, b'\n')
}

/// Appends a text to a builder. Another builder is unchanged.
///
/// # Errors
///
/// Those of `push_str`.
pub fn push_text_beside<C: ChunkSource>(
    text: &mut StringBuilder,
    a: &mut Allocator<C>,
    other: StringBuilder,
    s: &str,
) -> Grown<()>
    requires text { IsBuilderIn a.old.memory text.old }
    requires other { IsBuilderIn a.old.memory other }
    requires apart { AreBlocksApart other.block text.old.block }
    ensures grows { let growth = amortised_growth text.old.cap text.old.len (length s.now) in
        let list = builder_bytes a.old.memory text.old ++ s.now in
        Grows a.old a.new text.old growth list text.new result }
    ensures held { IsBuilderIn a.new.memory other }
    ensures other { builder_bytes a.new.memory other ≡ builder_bytes a.old.memory other }
    ensures apart { AreBlocksApart other.block text.new.block }
{
    frame_law::<StringBuilder>();
    text.push_str(a, s)
}

/// Appends a character to a text with room for its bytes. It takes no memory.
///
/// # Errors
///
/// None: the result is always `Ok`.
pub fn push_char_below<C: ChunkSource>(
    text: &mut StringBuilder,
    a: &mut Allocator<C>,
    c: char,
) -> Grown<()>
    requires held { IsBuilderIn a.old.memory text.old }
    requires room { text.old.len + length (encode_utf8 c) ≤ text.old.cap }
    ensures grows { let growth = amortised_growth text.old.cap text.old.len (length (encode_utf8 c)) in
        let list = builder_bytes a.old.memory text.old ++ encode_utf8 c in
        Grows a.old a.new text.old growth list text.new result }
    ensures ok { IsOk result }
    ensures places { SamePlaces a.old a.new }
    ensures used { used_bytes a.new.memory.state ≡ used_bytes a.old.memory.state }
{
    within_room();
    text.push(a, c)
}

/// Appends a character to a text, and returns the number of its characters after that.
///
/// # Errors
///
/// Those of `push`.
pub fn push_and_count<C: ChunkSource>(
    text: &mut StringBuilder,
    a: &mut Allocator<C>,
    c: char,
) -> Grown<usize>
    requires held { IsBuilderIn a.old.memory text.old }
    requires utf8 { IsUtf8 (builder_bytes a.old.memory text.old) }
    ensures grows { let growth = amortised_growth text.old.cap text.old.len (length (encode_utf8 c)) in
        let list = builder_bytes a.old.memory text.old ++ encode_utf8 c in
        Grows a.old a.new text.old growth list text.new (result_map_both (λ _. tt) (λ e. e) result) }
    ensures utf8 { IsUtf8 (builder_bytes a.new.memory text.new) }
    ensures count { IfOk result (λ n. n ≡ length (chars (builder_bytes a.new.memory text.new))) }
{
    utf8_rule();
    text.push(a, c)?;
    Ok(text.as_str(a).chars().count())
}

/// Appends a number in decimal digits. The digits are first made outside the arena, so an error leaves everything
/// unchanged.
///
/// # Errors
///
/// `OutOfMemory` if there is no memory for the digits, and otherwise those of `push_str`.
pub fn push_number<C: ChunkSource>(
    text: &mut StringBuilder,
    a: &mut Allocator<C>,
    alloc: Global,
    n: u64,
) -> Grown<()>
    requires { IsBuilderIn a.old.memory text.old }
    ensures { let growth = amortised_growth text.old.cap text.old.len (length (decimal n)) in
        let list = builder_bytes a.old.memory text.old ++ decimal n in
        Grows a.old a.new text.old growth list text.new result
        ⊎ ((result ≡ Err AllocError.OutOfMemory) × (text.new ≡ text.old) × (a.new ≡ a.old)) }
{
    let Ok(digits) = format!(in alloc; "{n}") else {
        return Err(AllocError::OutOfMemory);
    };
    text.push_str(a, digits.as_str())?;
    Ok(())
}
