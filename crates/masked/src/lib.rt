// No code: specs/Masked.antt states that the payload of an input can be masked, and proofs/ shows it.
#![tactic(auto)]
