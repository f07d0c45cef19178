// Words for lists and tests that every definition uses: no code.
#![tactic(auto)]
