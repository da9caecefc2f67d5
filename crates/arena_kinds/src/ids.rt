// Whether copies keep semantic ids.
ghost use Rattle.std.specs.Prelude.{◌≡◌, ◌-◌, ◌^◌};
ghost use Rattle.arena_kinds.specs.declared.ids.CloneInSemanticIds.TheVariants.{With, Without};

/// Whether a copy keeps semantic ids. The variants have the numbers that they have in the Rust crate.
#[derive(Clone, Copy, PartialEq, Eq, Debug)]
pub enum CloneInSemanticIds {
    /// Each id of the copy is that of the source.
    With = 0,
    /// Each id of the copy is 0.
    Without = 4_294_967_295,
}

impl CloneInSemanticIds {
    /// Returns the variant's number.
    pub fn number(self) -> u32
        ensures with { self ≡ With → result ≡ 0 }
        ensures without { self ≡ Without → result ≡ 2 ^ 32 - 1 }
    {
        self as u32
    }
}
