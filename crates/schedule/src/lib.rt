// When what is due of a phrase, of frames in any form and for any device. There is no code here: specs/ has the definitions
// and the statements, proofs/ their proofs.
#![tactic(auto)]
