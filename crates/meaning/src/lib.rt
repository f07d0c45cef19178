// The meaning of a book: definitions and their laws, no code.
#![tactic(auto)]
