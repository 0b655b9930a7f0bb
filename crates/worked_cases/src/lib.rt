// The worked examples of the rules, in one table with one proof.
#![tactic(auto)]

ghost use Rattle.std.specs.Prelude.{◌≡◌, length};
ghost use Rattle.std.specs.List.{AllByRecursion};
ghost use Rattle.worked_cases.specs.Cases.{Holds, worked};

// How many examples the table has; the rules give each of them the answer that stands beside it.
#[tactic(auto, unfolding(slips::specs::Verdict::verdict, slips::specs::Verdict::priced_fault, slips::specs::Verdict::gap_fault))]
pub fn worked_cases() -> usize
    ensures number { result ≡ length worked }
    ensures hold { AllByRecursion Holds worked }
{
    13
}
