#![tactic(auto)]

// The claims: definitions and theorems alone, no code. Read specs/Claims.antt.
