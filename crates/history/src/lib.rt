// The reference model and the history theorem. This crate has specs and proofs only: specs/ says what holds, proofs/Theorem.antt proves it.
#![tactic(auto)]
