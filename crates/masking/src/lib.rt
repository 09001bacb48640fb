// No code: specs/Masking.antt states that payload can be masked, of the machine's own definitions, and proofs/ shows it.
#![tactic(auto)]
