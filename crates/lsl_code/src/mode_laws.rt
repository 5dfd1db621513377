//! Laws of saving and restoring.

ghost use Rattle.lsl_code.specs.ModeLaws.{OneRestoring, OneSaving, RestoringKeeps, SavingKeeps};

/// Saving a machine ends with one list of frames at most, and with the machine's globals, limit and answers.
pub fn saving_has_one_result()
    ensures one { OneSaving }
    ensures kept { SavingKeeps }
{}

/// Restoring frames ends with one machine at most, after one count of instructions, and with the globals, the limit and
/// the answers that were beside the frames.
pub fn restoring_has_one_result()
    ensures one { OneRestoring }
    ensures kept { RestoringKeeps }
{}
