// What patches and screens mean, and the laws that the product exists for. No
// function here computes anything: each stands for the theorem in its contract.
#![tactic(auto)]

ghost use Rattle.meaning.specs.Application.{apply_patch};
ghost use Rattle.meaning.specs.Examples.{WorkedCases, LawsAreNeeded};
ghost use Rattle.meaning.specs.Joining.{JoiningLaw};
ghost use Rattle.meaning.specs.Carrying.{CarryingLaw, QueueLaw};
ghost use Rattle.meaning.specs.Log.{LogLaw};
ghost use Rattle.meaning.specs.ValueLaws.{RankLaw, ValueLaw, BatchLaw};

use text_value::TextValue;

// Joining changes no outcome, in every unit kind.
pub fn joining_changes_no_outcome<T: TextValue>()
    ensures { JoiningLaw T.TextValue.units }
{}

// Made patches carry the old document's value to the new one's, in every unit kind.
pub fn made_patches_carry<T: TextValue>()
    ensures { CarryingLaw T.TextValue.units }
{}

// The queue makes the turns of all identities, and never passes its places.
pub fn queue_keeps_its_places()
    ensures { QueueLaw }
{}

// A log holds the calls accepted since it was made or last emptied.
pub fn logs_hold_what_was_accepted()
    ensures { LogLaw }
{}

// Identities are told apart and ordered by their ranks.
pub fn ranks_order_identities()
    ensures { RankLaw }
{}

// A lawful document has one value, which is within a value's bounds in every unit kind.
pub fn documents_have_one_value<T: TextValue>()
    ensures { ValueLaw T.TextValue.units }
{}

// A batch is applied up to the first refusal, in every unit kind.
pub fn batches_stop_at_the_first_refusal<T: TextValue>()
    ensures { BatchLaw (apply_patch T.TextValue.units) }
{}

// Joining and making on worked cases.
pub fn worked_cases()
    ensures { WorkedCases }
{}

// The premises of both laws can be met, and without each of them a law fails.
pub fn laws_are_needed()
    ensures { LawsAreNeeded }
{}
