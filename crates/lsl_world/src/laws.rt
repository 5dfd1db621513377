//! Laws of runs. Each law is a function whose clause is the law; it does nothing.

ghost use Rattle.lsl_world.specs.Laws.{CountingChangesNothing, OneScriptHasOneTurn, RunsEndWhereNoneIsReady, TripsKeepSteps, TwoListsAreTwoCounts, TwoListsAreTwoRuns, TwoListsAreTwoTravels};
ghost use Rattle.lsl_world.specs.Lossy.{LossyRunsKeepSteps, PlainRunsTravel};
ghost use Rattle.lsl_world.specs.Ranges.{GoodFilesAreInRange};

/// A run of two lists of steps is the run of the first, and then that of the second from where the first ended.
pub fn two_lists_are_two_runs()
    ensures { TwoListsAreTwoRuns }
{}

/// A run by trips is the run of the steps without the refused crossings, as the meaning without trips defines it.
pub fn trips_keep_steps()
    ensures { TripsKeepSteps }
{}

/// A run without notes is one by trips.
pub fn plain_runs_travel()
    ensures { PlainRunsTravel }
{}

/// A run in which objects are handed over by notes is the run, without notes, of the steps without the crossings whose
/// offer didn't come, or came after its cancel.
pub fn lossy_runs_keep_steps()
    ensures { LossyRunsKeepSteps }
{}

/// A run of two lists of steps is the run of the first by its trips, and then that of the second by those after them.
pub fn two_lists_are_two_travels()
    ensures { TwoListsAreTwoTravels }
{}

/// What is counted in a run of two lists of steps is what is counted in the first, and then in the second.
pub fn two_lists_are_two_counts()
    ensures { TwoListsAreTwoCounts }
{}

/// What is counted in rounds changes neither what they report nor the world to which they lead.
pub fn counting_changes_nothing()
    ensures { CountingChangesNothing }
{}

/// Where there is one script, rounds are one turn: at most `n` segments in all are at most `n` in a row.
pub fn one_script_has_one_turn()
    ensures { OneScriptHasOneTurn }
{}

/// A run ends where no segment is left, or no script is ready.
pub fn runs_end_where_none_is_ready()
    ensures { RunsEndWhereNoneIsReady }
{}

/// A good file's counts and places are in their ranges, and its steps name nothing that isn't there.
pub fn good_files_are_in_range()
    ensures { GoodFilesAreInRange }
{}
