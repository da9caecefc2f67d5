// Public items of layouts and places.
use crate::kinds::is_copy;
use arena_place::{
    CHUNK_ALIGN, CHUNK_FOOTER_SIZE, DEFAULT_CHUNK_SIZE_WITHOUT_FOOTER, FIRST_ALLOCATION_GOAL,
    Layout, OVERHEAD, RAW_MIN_ALIGN, RAW_MIN_SIZE, TYPICAL_PAGE_SIZE, chunk_data_size,
    is_aligned_to, layout_from_size_align, next_base, place, round_down_to, round_up_to,
    round_up_to_unchecked,
};

fn places() {
    let _: fn(u64, u64) -> Option<Layout> = Layout::new;
    let _: fn(u64, u64, u64) -> Option<Layout> = Layout::array;
    let _: fn(&Layout) -> u64 = Layout::size;
    let _: fn(&Layout) -> u64 = Layout::align;
    let _: fn(u64, u64) -> Option<Layout> = layout_from_size_align;
    is_copy::<Layout>();
    let _: fn(u64, u64) -> Option<u64> = round_up_to;
    let _: fn(u64, u64) -> u64 = round_up_to_unchecked;
    let _: fn(u64, u64) -> u64 = round_down_to;
    let _: fn(u64, u64) -> bool = is_aligned_to;
    let _: fn(u64, u64, Layout, u64) -> Option<u64> = place;
    let _: fn(u64, Layout) -> Option<u64> = chunk_data_size;
    let _: fn(Option<u64>, u64) -> Option<u64> = next_base;
    prove!(CHUNK_ALIGN == 16u64);
    prove!(CHUNK_FOOTER_SIZE == 48u64);
    prove!(OVERHEAD == 64u64);
    prove!(TYPICAL_PAGE_SIZE == 4096u64);
    prove!(FIRST_ALLOCATION_GOAL == 16_384u64);
    prove!(DEFAULT_CHUNK_SIZE_WITHOUT_FOOTER == 16_320u64);
    prove!(RAW_MIN_SIZE == 48u64);
    prove!(RAW_MIN_ALIGN == 16u64);
}
