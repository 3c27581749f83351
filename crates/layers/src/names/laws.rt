// What names hold, whatever was done with them.
ghost use Rattle.layers.specs.Naming.{EachRenamingIsAccepted, NamesHaveEachNumberOnce};

// Each number from 0 to 7 is the number of just one lock.
pub fn names_have_each_number_once()
    ensures { NamesHaveEachNumberOnce }
{}

// Numbers are accepted where each number from 0 to 7 is the number of just one lock, and nowhere else.
pub fn each_renaming_is_accepted()
    ensures { EachRenamingIsAccepted }
{}
