// Whole runs that ask for origins: specs/ says what comes of them, proofs/ shows it from the calls' promises alone. There is no code.
#![tactic(auto)]
