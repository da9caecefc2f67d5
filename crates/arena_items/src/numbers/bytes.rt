// What the byte forms of the numbers share.
ghost use Rattle.std.specs.Prelude.{◌≡◌, length};

/// Returns bytes as an array. Cut to a length that the compiler knows, they are loaded at once.
#[tactic(auto, using(std::proofs::Common::take_all))]
#[inline]
pub(crate) fn array<const N: usize>(bytes: &[u8]) -> [u8; N]
    requires { length bytes.now ≡ N }
    ensures { result ≡ bytes.now }
{
    let mut copy = [0; N];
    copy.copy_from_slice(&bytes[..N]);
    copy
}
