// Order 14 of document 02, one slice is two carvings: definitions, promises and proofs. No code.
#![tactic(auto)]
