// A damaged word and the byte that its refusal tells. There is no code here: proofs/Breaks.antt shows that refusals 5 to 9 tell the first byte that breaks the
// rule.
#![tactic(auto)]
