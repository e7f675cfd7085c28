// The bench readings that are proved: P1 to P11 of document 01, one table of what is tried and what is answered (specs/Readings.antt) and one claim
// (proofs/Readings.antt); how the reply to a SET of 73 ends; and those of levels, of minus nought and of the bytes that refusals tell. There is no code here.
#![tactic(auto)]
