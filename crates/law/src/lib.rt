// The law: what document 01, and document 02 as far as it is built, says, as definitions. They stand in specs/, one
// file a chapter; the laws about them in proofs/. There is no code here: the crates above are measured against these
// definitions.
#![tactic(auto)]
