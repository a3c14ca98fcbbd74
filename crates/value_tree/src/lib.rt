// Trees of entries and the values that they stand for: what each action on a value does to its tree.
#![tactic(auto)]

pub mod laws;

ghost use Rattle.value_tree.specs.Acts.{MapsAgree, ListsAgree, TextsAgree};

// An action on the value of a map is an edit of the map's tree, or is refused.
pub fn map_edits_agree<U: Copy>()
    ensures { MapsAgree U }
{}

// An action on the value of a list is an edit of the list's tree, or is refused.
pub fn list_edits_agree<U: Copy>()
    ensures { ListsAgree U }
{}

// An action on the value of a text is an edit of the text's units, or is refused.
pub fn text_edits_agree<U: Copy>()
    ensures { TextsAgree U }
{}
