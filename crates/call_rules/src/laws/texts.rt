// Laws of the texts of calls and replies.
ghost use Rattle.std.specs.Prelude.{◌≡◌, ℕ, List, Some, Ok, Result};
ghost use Rattle.std.specs.List.{AllByRecursion};
ghost use Rattle.arena_rules.specs.State.{State};
ghost use Rattle.call_rules.specs.Machine.{Machine, run};
ghost use Rattle.call_rules.specs.Grammar.{CallsOf, Fits};
ghost use Rattle.call_rules.specs.Replies.{text_of, HasBytes};
ghost use Rattle.call_rules.specs.declared.calls.Call.{Call};
ghost use Rattle.call_rules.specs.declared.calls.Reply.{Reply};

/// No two lists of replies have the same text, if their bytes are from 0 to 255. Numbers are unbounded.
pub fn one_text()
    ensures { (a b : List Reply) → AllByRecursion HasBytes a → AllByRecursion HasBytes b
        → text_of a ≡ text_of b → a ≡ b }
{}

/// The numbers of calls read from a text fit their types, and the replies of a run of such calls have bytes from 0 to
/// 255. So the text of the replies determines them: two runs of calls read from texts have the same replies if those
/// have the same text.
pub fn run_texts()
    ensures calls_fit { (text : List ℕ) (calls : List Call) → CallsOf text (Ok calls)
        → AllByRecursion Fits calls }
    ensures replies_have_bytes { (state : State) (calls : List Call) (ks : List ℕ) (replies : List Reply)
        (last : Machine) → AllByRecursion Fits calls → run state calls ks ≡ Some (replies, last)
        → AllByRecursion HasBytes replies }
    ensures one_text { (text other : List ℕ) (calls others : List Call) (state from : State) (ks js : List ℕ)
        (a b : List Reply) (last end : Machine) → CallsOf text (Ok calls) → CallsOf other (Ok others)
        → run state calls ks ≡ Some (a, last) → run from others js ≡ Some (b, end)
        → text_of a ≡ text_of b → a ≡ b }
{}

/// Bytes have at most one reading: a list of calls, or the number of the first line that isn't valid.
pub fn one_reading()
    ensures { (bytes : List ℕ) (r s : Result (List Call) ℕ) → CallsOf bytes r → CallsOf bytes s → r ≡ s }
{}

/// All bytes have a reading, and by `one_reading` exactly one.
pub fn some_reading()
    ensures { (bytes : List ℕ) → (r : Result (List Call) ℕ) × CallsOf bytes r }
{}
