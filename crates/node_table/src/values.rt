// The value of the tree in the tables.
ghost use Rattle.node_table.specs.Counts.{CountsAgree, CountsKept, UnitsKept};
ghost use Rattle.node_table.specs.Values.{EditsAgree, RefusalsAgree};

// What is done to the tree at the end of a path is done to the value at that path, and what is refused there is refused.
pub fn edits_agree<U: Copy>()
    ensures done { EditsAgree U }
    ensures refused { RefusalsAgree U }
{}

// The value of a tidy tree counts what its nodes weigh, and the tables keep these numbers.
pub fn counts_agree<U: Copy>()
    ensures agree { CountsAgree U }
    ensures kept { CountsKept U }
    ensures units { UnitsKept U }
{}
