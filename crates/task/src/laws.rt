// What holds of every task and every text, as the contract of a function that computes nothing.
ghost use Rattle.task.specs.Accepted.{AcceptedTextsSayTheirTasks};
ghost use Rattle.task.specs.Reasons.{FaultsHaveTheirReasons};
ghost use Rattle.task.specs.Written.{ReadIsProper, WrittenReadsBack};

// Any proper task that is written down is read back as that very task, and any task that a text spells is a proper one.
pub fn written_tasks_read_back()
    ensures law { WrittenReadsBack }
    ensures proper { ReadIsProper }
{}

// A text is read exactly where its four lines say a task, item by item, and then as that task.
pub fn accepted_texts_say_their_tasks()
    ensures { AcceptedTextsSayTheirTasks }
{}

// Each fault has its reason, at its line, and where a reason holds there is that fault.
pub fn faults_have_their_reasons()
    ensures { FaultsHaveTheirReasons }
{}
