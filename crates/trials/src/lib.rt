// Boundaries and refusals of the books, run as tests.
#![tactic(auto)]

#[cfg(test)]
mod bars;
#[cfg(test)]
mod lists;
#[cfg(test)]
mod surcharges;
#[cfg(test)]
mod tariffs;
#[cfg(test)]
mod told;
