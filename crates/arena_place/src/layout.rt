// The size and the alignment of a block.
ghost use Rattle.std.specs.Prelude.{◌≡◌, ◌*◌, IsTrue, is_some, IfSome};
ghost use Rattle.arena_rules.specs.Rounding.{is_layout};

use crate::rounding::round_up_to;

const MAX_SIZE: u64 = (1 << 63) - 1;

/// The size and the alignment of a block, in bytes. The alignment is a power of two, and the size, rounded up to
/// a multiple of it, is at most 2^63 - 1.
#[derive(Clone, Copy, PartialEq, Eq, Debug)]
pub struct Layout {
    pub size: u64,
    pub align: u64,
    pub ghost valid: { IsTrue (is_layout size align) },
}

impl Layout {
    // Returns whether the two numbers are a valid layout.
    pub(crate) const fn is_valid(size: u64, align: u64) -> bool
        ensures { result ≡ is_layout size align }
    {
        if !align.is_power_of_two() {
            return false;
        }
        match round_up_to(size, align) {
            Some(padded) => padded <= MAX_SIZE,
            None => false,
        }
    }

    /// Returns the layout of this size and alignment, or `None` if it isn't valid.
    pub const fn new(size: u64, align: u64) -> Option<Layout>
        ensures valid { is_some result ≡ is_layout size align }
        ensures value { IfSome result (λ l. (l.size ≡ size) × (l.align ≡ align)) }
    {
        if Layout::is_valid(size, align) {
            Some(Layout { size, align })
        } else {
            None
        }
    }

    /// Returns the layout of this size and alignment, which must be valid.
    #[inline(always)]
    pub const fn of(size: u64, align: u64) -> Layout
        requires { IsTrue (is_layout size align) }
        ensures size { result.size ≡ size }
        ensures align { result.align ≡ align }
    {
        Layout { size, align }
    }

    /// Returns the layout of `n` consecutive elements of this size, or `None` if it isn't valid.
    pub const fn array(n: u64, size: u64, align: u64) -> Option<Layout>
        ensures valid { is_some result ≡ is_layout (n * size) align }
        ensures value { IfSome result (λ l. (l.size ≡ n * size) × (l.align ≡ align)) }
    {
        match n.checked_mul(size) {
            Some(total) => Layout::new(total, align),
            None => None,
        }
    }

    /// Returns the size in bytes.
    pub const fn size(&self) -> u64
        ensures { result ≡ self.now.size }
    {
        self.size
    }

    /// Returns the alignment, a power of two.
    pub const fn align(&self) -> u64
        ensures { result ≡ self.now.align }
    {
        self.align
    }
}

/// Returns the layout of this size and alignment, or `None` if it isn't valid, as `Layout::new` does.
pub const fn layout_from_size_align(size: u64, align: u64) -> Option<Layout>
    ensures valid { is_some result ≡ is_layout size align }
    ensures value { IfSome result (λ l. (l.size ≡ size) × (l.align ≡ align)) }
{
    Layout::new(size, align)
}
