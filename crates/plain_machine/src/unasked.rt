// Calls that ask for nothing.
ghost use Rattle.std.specs.Prelude.{◌≡◌, ◌==◌, Some, None, if◌then◌else◌};

// The answer of such a call, which has a step only where nothing is refused.
pub(crate) fn unasked<T: Drop>(refused: u32, answer: T) -> Option<T>
    ensures { result ≡ (if refused == 0 then Some answer else None) }
{
    if refused == 0 { Some(answer) } else { None }
}
