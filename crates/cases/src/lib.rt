// The worked cases, over the definitions of the ELF loader and of the line. There is no code here: `specs/Cases.antt`
// has the list, and `proofs/CasesHold.antt` the statement.
#![tactic(auto)]
