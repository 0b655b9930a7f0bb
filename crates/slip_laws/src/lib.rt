// What a slip that passes is worth: the proofs.
#![tactic(auto)]

ghost use Rattle.slips.specs.Worth.{VerdictsByLaw};

// It has no code: a theorem counts where a contract names it, and a call is how other crates come by it.
// That every verdict on a slip keeps the law: a priced slip that passes is a least pairing, and a gap slip that passes shows that there is none.
pub fn verdicts_by_law()
    ensures { VerdictsByLaw }
{}
