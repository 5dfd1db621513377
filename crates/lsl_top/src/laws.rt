//! Laws of answers. Each law is a function whose clause is the law; it does nothing.

ghost use Rattle.lsl_top.specs.Halves.{TwoHalvesAreOneRun};
ghost use Rattle.lsl_top.specs.Laws.{AnswersAreOne, CopiesKeep, KeptFromEach, RunsAreJournals};
ghost use Rattle.lsl_top.specs.Positions.{PositionsAreOfTheFile};

/// A command has one answer at most: its status, its output and what it sends over the link. This holds over known
/// files, from the world that was frozen before, and by the trips that are made.
pub fn answers_are_one()
    ensures { AnswersAreOne }
{}

/// The pieces of a run are its journal and what is printed at its end, and send the images of the objects that cross.
pub fn runs_are_journals()
    ensures { RunsAreJournals }
{}

/// Over a link that gives back what it is sent, a command's promise holds without a premise on what comes back.
pub fn copies_keep()
    ensures { CopiesKeep }
{}

/// A command keeps its promise from each world that can have been frozen, whatever texts the files can have.
pub fn kept_from_each()
    ensures { KeptFromEach }
{}

/// A run may be frozen and thawed between two steps.
///
/// `freeze` ends well on the first steps, and its output is a file of at most 2,147,483,647 bytes. Then its journal,
/// and after that the output of `thaw` on the other steps, are the report of `replay` on all steps; and the two send
/// over the link what `replay` sends.
pub fn two_halves_are_one_run()
    ensures { TwoHalvesAreOneRun }
{}

/// A file that ends at a position has the whole steps before it, and of its step the first segments; at the start of a
/// step only the steps before it, and after its last step all.
pub fn positions_are_of_the_file()
    ensures { PositionsAreOfTheFile }
{}
