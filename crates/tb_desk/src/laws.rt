//! What holds of every run, whoever keeps it.
ghost use Rattle.std.specs.Prelude.{List};
ghost use Rattle.tb_core.specs.GoodWorld.{IsGoodWorld};
ghost use Rattle.tb_calls.specs.declared.call.Call.{Call};
ghost use Rattle.tb_calls.specs.Call.{State, once, plain};
ghost use Rattle.tb_desk.specs.Histories.{HistoryIsOfCalls};
ghost use Rattle.tb_desk.specs.Resuming.{SessionsJoin, SessionsResume, ToldIsKept};

/// A client that was interrupted may send its calls again, from the first that was not answered, and any of them once more.
pub fn sessions()
    ensures join { SessionsJoin }
    ensures resume { SessionsResume }
    ensures kept { ToldIsKept }
{}

/// A good world stays good, whatever calls come.
pub fn worlds_stay_good()
    ensures { (s : State) (calls : List Call) → IsGoodWorld s.world
        → IsGoodWorld (plain s (once s calls)).world }
{}

/// A board's history has one entry for each call that acts and does something there, in their order, and no other.
pub fn history_is_of_calls()
    ensures { HistoryIsOfCalls }
{}
