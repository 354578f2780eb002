//! A take in one turn, where an event is pending.
ghost use Rattle.std.specs.Prelude.{◌≡◌};
ghost use Rattle.wx_shared.specs.Works.{TakesIn, IsTaken};

use crate::shared::Shared;
use wx_broker::Broker;
use wx_id::ContextNo;
use wx_machine::Answer;
use wx_turn::Work;

/// What a take came to that is made only where an event is pending.
#[derive(Clone, Copy, Debug, PartialEq, Eq)]
pub enum Taken {
    /// Nothing was pending.
    Nothing,
    /// It was answered so.
    Took(Answer),
    /// Memory was refused.
    Refused,
}

/// A take of a context, where an event is pending for it.
#[derive(Drop)]
pub struct TakingReady {
    pub context: ContextNo,
}

impl Work<Shared> for TakingReady {
    type Answer = Taken;

    ghost relates = { λ old new world marks mark taken. TakesIn old.context world marks mark taken };

    fn act(&mut self, state: &mut Shared) -> Taken {
        state.turns += 1;
        let taken = take_in(&mut state.broker, self.context);
        let _legal = state.broker.journal();
        taken
    }
}

/// Takes, where an event is pending.
fn take_in(broker: &mut Broker, c: ContextNo) -> Taken
    ensures { IsTaken broker.old broker.new c result }
{
    if c.0 >= broker.contexts() {
        return Taken::Refused;
    }
    if !broker.ready(c) {
        return Taken::Nothing;
    }
    match broker.take(c) {
        Ok(answer) => Taken::Took(answer),
        Err(_) => Taken::Refused,
    }
}
