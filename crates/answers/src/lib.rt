// What the operations on a text and a pair answer, in specs/: First and After a resolution or none, Judge the verdict, 0 to 5, a page how many resolutions
// were written; each of them or the refusal. There is no code here.
#![tactic(auto)]
