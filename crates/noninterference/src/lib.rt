// Demand 3, over the definitions of `model` alone: there is no code here. Its premises are specs/Alike.antt and
// specs/Trace.antt, its claim is specs/Demand3.antt, and specs/Witnesses.antt shows that it says something.
#![tactic(auto)]
