// The three demands on the engine, in one file: proofs/Demands.antt. That points noted before document 02, (c), go on as they did:
// proofs/Noted.antt. There is no code here.
#![tactic(auto)]
