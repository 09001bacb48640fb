// No code: specs/ says what a whole input, a sequence of calls and a session's steps come to, and proofs/ shows it.
#![tactic(auto)]
