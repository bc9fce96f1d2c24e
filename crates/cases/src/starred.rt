// The cases that are proved of the definitions.
ghost use Rattle.cases.specs.Starred.{Starred};

// Judging, on the plan G and its three changes.
pub fn starred_cases_hold()
    ensures { Starred }
{}
