// The theory of keyed versions: definitions and theorems alone.
#![tactic(auto)]
