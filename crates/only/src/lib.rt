// No code: specs/Only.antt says what it is for a contract to leave one result, proofs/Alone.antt shows it by the form of an `ensures`,
// and each crate's proofs/Unique.antt by one of those laws of its public functions.
#![tactic(auto)]
