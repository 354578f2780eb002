//! A law of scripts: what the entries of an endpoint are that carry out its script.
#![tactic(auto)]

ghost use Rattle.std.specs.Prelude.{◌≡◌, List, Some, reverse, slice_get};
ghost use Rattle.wx_id.specs.declared.numbers.ContextNo.{ContextNo};
ghost use Rattle.wx_machine.specs.declared.entries.Entry.{Entry};
ghost use Rattle.wx_script.specs.declared.script.Command.{Command};
ghost use Rattle.wx_script.specs.Carries.{CarriesOut};
ghost use Rattle.wx_script_laws.specs.Parts.{calls_by, HasParts};

/// The law of parts: where a journal carries out the scripts of its endpoints, the own calls of each are its `enter`,
/// one part for each command that was not passed over, in the order of its script, and then its `leave`, or a
/// beginning of these. It does nothing when it runs.
pub fn parts_in_order()
    ensures { (scripts : List (List Command)) (journal : List Entry) (c : ContextNo) (script : List Command)
        → slice_get scripts c.0 ≡ Some script → CarriesOut scripts journal
        → HasParts script (calls_by c (reverse journal)) }
{}
