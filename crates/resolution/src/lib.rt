// The resolutions of the search are those of the definitions: laws only, no code.
// The theorem is resolution-same (proofs/Resolutions.antt).
#![tactic(auto)]
