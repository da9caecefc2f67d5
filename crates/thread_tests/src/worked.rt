// What the definitions say of a worked script.
ghost use Rattle.std.specs.Prelude.{◌≡◌};
ghost use Rattle.script_rules.specs.Machine.{run, cost_of};
ghost use Rattle.script_rules.specs.Objects.{need};
ghost use Rattle.thread_tests.specs.Worked.{worked};

/// The last objects need 9 bytes: two numbers of 4 bytes, and one byte of text. The commands cost 84.
pub fn worked_script()
    ensures need { need (run worked).objects ≡ 9 }
    ensures cost { cost_of worked ≡ 84 }
{}
