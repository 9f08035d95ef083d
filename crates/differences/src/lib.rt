// The tables of docs/DIFFERENCES.md, in the order of that page, each with the answer that the steps give. There is no
// code here: the list stands in specs/, and proofs/ computes every answer.

#![tactic(auto)]
