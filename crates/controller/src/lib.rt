// What a controller makes of a GET's reply: a block, which it reads as any other. There is no code here: proofs/Reading.antt says what it finds.
#![tactic(auto)]
