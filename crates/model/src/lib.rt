#![tactic(auto)]

// The chain as lists: devices with registers and a phase, sets, and restores. Definitions and laws only, for any part's row and slices
// of any length: specs/ says what a device and a restore are, proofs/ what a chain holds and returns after a restore, whole or cut.
