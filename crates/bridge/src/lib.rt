// The joint between the definitions and the search: laws only, no code.
// The theorem is view-same (proofs/Views.antt): the views that the search tests are the views of the book.
#![tactic(auto)]
