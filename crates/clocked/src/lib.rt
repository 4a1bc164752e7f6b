#![tactic(auto)]

// Devices of the model that keep their own clock, as lists. Definitions and laws only, for any part's row: specs/ says what a clock does to a
// device and to a chain, proofs/ what a chain holds and returns after a restore, whole or cut.
