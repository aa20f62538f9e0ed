// The worked examples, stated with the definitions that the contracts use.
#![tactic(auto)]

ghost use Rattle.std.specs.Prelude.{◌≡◌, length};
ghost use Rattle.std.specs.List.{AllByRecursion};
ghost use Rattle.examples.specs.Worked.{Holds, worked};

// How many worked examples there are; each of them holds.
pub fn worked_examples() -> usize
    ensures count { result ≡ length worked }
    ensures hold { AllByRecursion Holds worked }
{
    10
}
