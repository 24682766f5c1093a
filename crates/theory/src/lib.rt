// Laws and decision procedures about the definitions of `model`. They stand in specs/ and proofs/; there is no code.
#![tactic(auto)]
