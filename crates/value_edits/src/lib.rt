// Changes at a place of a value, within its bounds.
#![tactic(auto)]

ghost use Rattle.value_edits.proofs.Places.{at_place};
