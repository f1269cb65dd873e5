// What is claimed over the definitions of the other crates. There is no code here: specs/ has the statements and proofs/
// their proofs.
#![tactic(auto)]
