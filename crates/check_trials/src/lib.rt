// Every answer of the check of slips, run as tests.
#![tactic(auto)]

#[cfg(test)]
mod chain;
#[cfg(test)]
mod examples;
#[cfg(test)]
mod gaps;
#[cfg(test)]
mod groups;
#[cfg(test)]
mod order;
#[cfg(test)]
mod pieces;
#[cfg(test)]
mod prices;
#[cfg(test)]
mod shapes;
#[cfg(test)]
mod sheets;
#[cfg(test)]
mod worked;
