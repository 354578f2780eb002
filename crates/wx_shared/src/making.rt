//! A call in one turn.
ghost use Rattle.std.specs.Prelude.{◌≡◌, Some, IsSome};
ghost use Rattle.wx_shared.specs.Works.{MakesCall, IsMade};

use crate::calls::call_at;
use crate::shared::Shared;
use wx_machine::{Answer, Call, Who};
use wx_turn::Work;

/// One call at the shared broker. Where no entry was made the call is still there.
#[derive(Drop)]
pub struct Making {
    pub who: Who,
    pub call: Option<Call>,
}

impl Making {
    /// The call that was not made.
    pub fn into_call(self) -> Call
        requires { IsSome self.call }
        ensures { Some result ≡ self.call }
    {
        let Making { who: _, call } = self;
        match call {
            Some(call) => call,
            None => unreachable!(),
        }
    }
}

impl Work<Shared> for Making {
    type Answer = Option<Answer>;

    ghost relates = { λ old new world marks mark answer. MakesCall old.who old.call new.call world marks mark answer };

    fn act(&mut self, state: &mut Shared) -> Option<Answer> {
        state.turns += 1;
        let answer = make_in(state, self);
        let _legal = state.broker.journal();
        answer
    }
}

/// Makes the call, where its caller is known and memory is there.
fn make_in(state: &mut Shared, work: &mut Making) -> Option<Answer>
    ensures made { IsMade state.old.broker state.new.broker work.old.who work.old.call work.new.call result }
    ensures turns { state.new.turns ≡ state.old.turns }
{
    let call = work.call.take()?;
    match call_at(&mut state.broker, work.who, call) {
        Ok(answer) => Some(answer),
        Err(call) => {
            work.call = Some(call);
            None
        }
    }
}
