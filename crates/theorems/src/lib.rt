// What a reader may conclude from the promises of both engines. Theorems alone: there is no code here, so that a change of an
// engine does not prove them again until it is proved itself.
#![tactic(auto)]
