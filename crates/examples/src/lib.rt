// Document 01's examples. This crate has specs and proofs only: specs/Table.antt lists them, proofs/Holds.antt proves that every one holds.
#![tactic(auto)]
