// Listing an image and assembling the text gives the image back (demand 2): laws, in proofs/.
#![tactic(auto)]
