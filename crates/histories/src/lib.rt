// Histories of a gene family: definitions and theorems alone. specs/ says what a history is, what it counts and which are legal;
// proofs/Demand.antt has what the least history is among the legal ones.

#![tactic(auto)]
