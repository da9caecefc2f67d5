// Laws of the generator's calls, and of a summary of replies.
ghost use Rattle.std.specs.Prelude.{◌≡◌, ℕ, ◌≤◌, length, take};
ghost use Rattle.std.specs.List.{AllByRecursion};
ghost use Rattle.call_rules.specs.Grammar.{Fits};
ghost use Rattle.call_rules.specs.Generator.{gen_calls};
ghost use Rattle.call_rules.specs.Summary.{Summary, summary_text};

/// There are as many calls as asked for, fewer calls are the first of more, and their numbers fit their types, so that
/// each call has a line.
pub fn generated_calls()
    ensures counted { (start count : ℕ) → length (gen_calls start count) ≡ count }
    ensures first { (start count more : ℕ) → count ≤ more
        → take count (gen_calls start more) ≡ gen_calls start count }
    ensures fit { (start count : ℕ) → AllByRecursion Fits (gen_calls start count) }
{}

/// No two summaries have the same text.
pub fn one_summary()
    ensures { (a b : Summary) → summary_text a ≡ summary_text b → a ≡ b }
{}
