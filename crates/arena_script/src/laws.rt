// What the promises of runs mean together, as facts. Each law is a function that does nothing: called in a body, it
// provides its fact there.
ghost use Rattle.arena_script.specs.OneOutcome.{HasOneOutcome, FixedHasOneOutcome};

/// Over arenas whose states differ at most by their generations, a script has one outcome and leaves such states, unless
/// memory runs out or a source refuses a request.
pub fn one_outcome()
    ensures { HasOneOutcome }
{}

/// Over arenas that don't grow, the number of their bytes and the script determine the outcome, whatever ran on them
/// before, unless memory runs out.
pub fn fixed_outcome()
    ensures { FixedHasOneOutcome }
{}
