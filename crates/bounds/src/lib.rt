// No code: where a refusal can be. Every place has 16 bits once the rules before it are passed, since a table then has at most 2,047
// nodes; crates that hand a place to C in 32 bits cite it.

#![tactic(auto)]
