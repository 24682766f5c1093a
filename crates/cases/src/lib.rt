// The paper's cases, for the definitions themselves. They stand in specs/ and proofs/; there is no code.
#![tactic(auto)]
