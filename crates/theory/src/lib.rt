// Demand 3 over the definitions of the law: pure theory, no code. What is proved stands in specs/Stated.antt, in the
// words of law/specs/Promise.antt.
#![tactic(auto)]
