// What is said of the numbers below a bound: the first that is there, sums and counts. Definitions and lemmas alone.
#![tactic(auto)]
