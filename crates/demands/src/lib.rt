// The demands of the statement, over the contracts of the calls. There is no code here: read specs/, which says what is claimed; proofs/ proves it.

#![tactic(auto)]
