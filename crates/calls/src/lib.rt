#![tactic(auto)]

// What the four calls on a lent chain mean: the plain chain of records, when each call is refused and what it leaves, and lists of calls.
// Definitions and laws only. The calls themselves, which change a chain in place, are in the crate chain.
