// Laws of changes of trees.
ghost use Rattle.value_tree.specs.Laws.{UpdateLaws, ProperLaws, WeightLaws};

// One change after another.
pub fn updates_hold<U: Copy>()
    ensures { UpdateLaws U }
{}

// What keeps a tree proper.
pub fn propers_hold<U: Copy>()
    ensures { ProperLaws U }
{}

// What changed trees weigh and count.
pub fn weights_hold<U: Copy>()
    ensures { WeightLaws U }
{}
