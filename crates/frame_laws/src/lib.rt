// No code: what holds of the definitions that the contracts of the frame writer and of the two readers cite. The statements' own
// definitions are in specs/RoundTrip; the theorems are in proofs/: Configuration, RoundTrip, Returns.
#![tactic(auto)]
