// Document 01's P cases, in one theorem (specs/Cases.antt, proofs/AllHold.antt). There is no code here.
#![tactic(auto)]
