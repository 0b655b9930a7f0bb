// One morning at a depot: drives the library through its steps, and prints each with its answer.
#![tactic(auto)]

mod bars;
mod fault;
mod lists;
mod piles;
mod show;
mod surcharges;
mod survey;
mod tariffs;
mod verdicts;

use fault::*;

fn main(rt: HostRuntime) -> Result<(), WalkFault> {
    lists::walk(&rt)?;
    bars::walk(&rt)?;
    surcharges::walk(&rt)?;
    tariffs::walk(&rt)?;
    piles::walk(&rt)?;
    survey::walk(&rt)?;
    verdicts::walk(&rt)?;
    Ok(())
}
