ghost use Rattle.sheet_register.specs.Law.{RunsByLaw, ClosesByLaw};

use slip_laws::verdicts_by_law;

// That every run of calls on a sheet keeps to the register, and that one which ends closed leaves no withdrawal open. It has no code of its own: its
// callers' clauses state these theorems, and a call is how they come by them.
pub fn runs_by_law()
    ensures law { RunsByLaw }
    ensures closes { ClosesByLaw }
{
    verdicts_by_law();
}
