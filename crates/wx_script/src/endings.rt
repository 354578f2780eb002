//! The law of how a script ends.
ghost use Rattle.wx_script.specs.Left.{EndsByLeaving};

/// A script ends by the leave of its context, and by nothing else.
#[tactic(auto, using(crate::proofs::LeftLemmas::ended_left))]
pub fn ends_by_leaving()
    ensures { EndsByLeaving }
{}
