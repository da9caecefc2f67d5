// Values whose byte form is that of their parts.
ghost use Rattle.std.specs.Prelude.{◌≡◌, ℕ, ◌^◌, ◌≤◌, List, length};
ghost use Rattle.std.proofs.Common.{◌∙◌, ap};

use arena_clone::Plain;
use arena_items::Item;

/// A type whose values are determined by parts that have a byte form.
pub trait Parts: Copy {
    /// The parts of a value: a number, a handle, a tuple of such.
    type Form: Item;

    ghost parts: { Self → Self.Form };

    ghost whole: { Self.Form → Self };

    /// Returns the parts of a value.
    fn parts(self) -> Self::Form
        ensures { result ≡ parts self };

    /// Returns the value with these parts. All parts give one.
    fn whole(form: Self::Form) -> Self
        ensures { result ≡ whole form };

    ghost back: { (v : Self) → whole (parts v) ≡ v };
}

/// A value with the byte form of its parts: the `Item` of a type that implements `Parts`.
#[derive(Clone, Copy, PartialEq, Eq, Debug)]
pub struct ByParts<T>(pub T);

impl<T: Parts> Item for ByParts<T> {
    ghost is_value = { λ v. T.Form.is_value (T.parts v.0) };

    ghost encoded = { λ v. T.Form.encoded (T.parts v.0) };

    ghost decoded = { λ bytes. record { 0 = T.whole (T.Form.decoded bytes) } };

    ghost SIZE = { T.Form.SIZE };

    ghost ALIGN = { T.Form.ALIGN };

    const SIZE: u64 = <T::Form as Item>::SIZE;

    const ALIGN: u64 = <T::Form as Item>::ALIGN;

    ghost round_trip = { λ v h s. λ i. record { 0 = (ap T.whole (T.Form.round_trip (T.parts v.0) h s) ∙ T.back v.0) i } };

    ghost encoded_length = { λ v h s. T.Form.encoded_length (T.parts v.0) h s };

    ghost layout = { T.Form.layout };

    fn known(&self) {
        self.0.parts().known();
    }

    fn encode(self, out: &mut [u8]) {
        self.0.parts().encode(out);
    }

    fn decode(bytes: &[u8]) -> Self {
        let value = T::whole(<T::Form as Item>::decode(bytes));
        // For the proof: the parts of a variable are values.
        value.parts().known();
        ByParts(value)
    }
}

impl<T: Plain> Plain for ByParts<T> {}
