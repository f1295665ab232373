ghost use Rattle.std.specs.Prelude.{◌≤◌, List, ℕ};
ghost use Rattle.odb_outside.specs.Files.{File};
ghost use Rattle.odb_run.specs.Answering.{Answered, AreAnswers, IsAnswer, Machine, machine};
ghost use Rattle.odb_run.specs.Laws.{AreFilesOfBytes, HasAnswer, HasMoreAnswers, IsDetermined, IsSoundMachine};
ghost use Rattle.odb_run.specs.Machine.{start};

/// The copying machine answers lines in one way: the replies and files that `odb_main` is proved to give are the only
/// ones that the machine has. It does nothing.
pub fn answers_are_determined()
    ensures { (m : Machine) (lines : List (List ℕ)) → IsDetermined m lines }
{}

/// A machine that is sound has an answer to each line, and each answer leaves it sound. So the machine with which a
/// script begins, over any files of bytes, has answers to the whole script, and those to its first lines are the first of
/// them: what [`odb_main`](crate::odb_main) has written when it ends early is a prefix of all the script's replies. It does
/// nothing.
pub fn each_line_has_an_answer()
    ensures start { (cap : ℕ) (files : List File) → cap ≤ 16777215 → AreFilesOfBytes files → IsSoundMachine cap (machine (start cap) files) }
    ensures one { (cap : ℕ) (m : Machine) (line : List ℕ) → IsSoundMachine cap m → HasAnswer m line }
    ensures kept { (cap : ℕ) (m : Machine) (line : List ℕ) (a : Answered) → IsSoundMachine cap m → IsAnswer m line a → IsSoundMachine cap a.machine }
    ensures more { (cap : ℕ) (m : Machine) (lines : List (List ℕ)) (answers : List Answered) (others : List (List ℕ)) → IsSoundMachine cap m → AreAnswers m lines answers → HasMoreAnswers m lines answers others }
{}
