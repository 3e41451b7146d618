// Writing a figure as text and reading it undo each other, over the definitions of `model` alone: there is no code here.
// The claims are proofs/Theorems.antt, in the words of specs/Counted.antt and specs/RoundTrip.antt; proofs/Witness.antt shows that
// their premises can be met; the steps of the proofs are proofs/Laws.
#![tactic(auto)]
