//! Laws of runs.
ghost use Rattle.std.specs.Prelude.{List};
ghost use Rattle.wx_machine.specs.declared.entries.Entry.{Entry};
ghost use Rattle.wx_script.specs.declared.script.Command.{Command};
ghost use Rattle.wx_run.specs.Run.{HasOneEnd};

/// The law of ends: a run has one end, since of done, stalled and spent, and of those who may be spent, no two hold of
/// one journal. It does nothing when it runs.
pub fn one_end()
    ensures { (scripts : List (List Command)) (past : List Entry) → HasOneEnd scripts past }
{}
