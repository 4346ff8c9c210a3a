// No code: what loops over lent lists say, for the proofs of every layer. A reader of the public statements needs none of it.
#![tactic(auto)]
