// Types with a byte form.
ghost use Rattle.std.specs.Prelude.{◌≡◌, ℕ, ◌*◌, ◌^◌, ◌≤◌, List, length};
ghost use Rattle.std.specs.List.{flat_map};
ghost use Rattle.arena_items.specs.Layout.{IsItemLayout};

/// A type whose values are kept as bytes. Decoding the byte form of a value gives the value back.
pub trait Item: Copy {
    // The values that a variable of the type can have. In a law a variable of a number type ranges over all numbers.
    ghost is_value: { Self → Type 0 };

    ghost encoded: { Self → List ℕ };

    ghost decoded: { List ℕ → Self };

    /// The bytes of a value, a multiple of `ALIGN`.
    const SIZE: u64;

    ghost SIZE: { ℕ };

    /// The alignment of a value's address: 1, 2, 4, 8 or 16.
    const ALIGN: u64;

    ghost ALIGN: { ℕ };

    /// Does nothing at run time: for the proof, a variable of the type holds one of its values. An implementation reads
    /// each part, so that its bounds are known.
    fn known(&self)
        ensures { is_value self.now };

    /// Writes the byte form.
    fn encode(self, out: &mut [u8])
        requires length { length out.old ≡ SIZE }
        requires small { SIZE ≤ 2 ^ 24 }
        ensures { out.new ≡ encoded self };

    /// Writes the byte forms of values, one after another.
    fn encode_all(values: &[Self], out: &mut [u8])
        requires length { length out.old ≡ length values.now * SIZE }
        requires small { SIZE ≤ 2 ^ 24 }
        ensures { out.new ≡ flat_map encoded values.now }
    {
        let size = Self::SIZE as usize;
        for i in 0..values.len() {
            let at = i * size;
            values[i].encode(&mut out[at..at + size]);
        }
    }

    /// Returns the value that the bytes encode. All bytes encode one.
    fn decode(bytes: &[u8]) -> Self
        requires length { length bytes.now ≡ SIZE }
        requires small { SIZE ≤ 2 ^ 24 }
        ensures value { result ≡ decoded bytes.now }
        ensures known { is_value result };

    ghost round_trip: { (v : Self) → is_value v → SIZE ≤ 2 ^ 24 → decoded (encoded v) ≡ v };

    ghost encoded_length: { (v : Self) → is_value v → SIZE ≤ 2 ^ 24 → length (encoded v) ≡ SIZE };

    ghost layout: { IsItemLayout SIZE ALIGN };
}
