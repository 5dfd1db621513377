//! Laws of scripts. Each law is a function whose clause is the law; it does nothing.

ghost use Rattle.lsl_script.specs.FlightLaws.{FlightsAreNeverLost, FlightsAskSoOften};
ghost use Rattle.lsl_script.specs.GoingLaws.{ChangesLeaveFirst, ResetsRestart, ReturnsStay};
ghost use Rattle.lsl_script.specs.MailLaws.{ListensAreIts, RestingTimerIsIts, StaysAwake, StaysFitting, TimerIsIts};
ghost use Rattle.lsl_script.specs.MeantLaws.{MeantSaysTheSame};
ghost use Rattle.lsl_script.specs.RuleLaws.{RulesAreLawful};
ghost use Rattle.lsl_script.specs.Laws.{ChargeComesFirst, ExitComesFirst, FaultsAreForGood, LeavingGoesOn, NewStateKeepsTimer, ResetBeginsAgain, SameStateIsReturn};

/// A change to the state in which a script is already is a return.
pub fn same_state_is_return()
    ensures { SameStateIsReturn }
{}

/// A script that leaves its state takes its exit first, and whatever that does leads to the state for which it leaves.
pub fn leaving_goes_on()
    ensures goes { LeavingGoesOn }
    ensures first { ExitComesFirst }
{}

/// How a handler's end continues: a reset begins the script again, also while it leaves; a return stays; a change to
/// another state goes by the handler of the exit if there is one, and at once if there is none.
pub fn ends_lead_on()
    ensures reset { ResetsRestart }
    ensures stays { ReturnsStay }
    ensures changes { ChangesLeaveFirst }
{}

/// In a new state nothing is listened to and only the entry waits; the timer stays, and listens are numbered on.
pub fn new_state_keeps_timer()
    ensures { NewStateKeepsTimer }
{}

/// A reset brings back what a script had at its start.
pub fn reset_begins_again()
    ensures { ResetBeginsAgain }
{}

/// A script that stopped takes no event and is never ready again; its state stays.
pub fn faults_are_for_good()
    ensures { FaultsAreForGood }
{}

/// The charge at a handler's end is that of the globals that it left, and is reported before events go.
pub fn charge_comes_first()
    ensures { ChargeComesFirst }
{}

/// An awake script's listens and its timer are its source's, and what is done to them in place is done to the source's;
/// the script stays one of its unit.
pub fn mail_of_awake_scripts()
    ensures listens { ListensAreIts }
    ensures timer { TimerIsIts }
    ensures awake { StaysAwake }
{}

/// The timer of a script between turns is its source's, and what is done to it in place is done to the source's; the
/// script stays one of its unit.
pub fn timers_between_turns()
    ensures timer { RestingTimerIsIts }
    ensures fits { StaysFitting }
{}

/// A handler at a tick makes at most this many calls before its next one.
pub fn flights_ask_so_often()
    ensures { FlightsAskSoOften }
{}

/// A handler with answers to its own calls is cut, asks, ends or stops: it is never lost.
pub fn flights_are_never_lost()
    ensures { FlightsAreNeverLost }
{}

/// The result of a routine that isn't cut is the same with more ticks, and of one that doesn't ask with more answers.
pub fn rules_are_lawful()
    ensures { RulesAreLawful }
{}

/// Rules that mean what the rules of units mean say the same of scripts of these units.
pub fn meant_rules_say_the_same()
    ensures { MeantSaysTheSame }
{}
