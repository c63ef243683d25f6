// What the listing program prints for an input, byte by byte. There is no code here: read specs/, then proofs/.

#![tactic(auto)]
