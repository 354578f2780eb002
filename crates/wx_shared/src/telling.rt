//! Turns that make no entry: a text is copied, or it is asked whether to stop.
ghost use Rattle.std.specs.Prelude.{◌≡◌, ◌||◌, IfOk, reverse};
ghost use Rattle.wx_machine.specs.Words.{text_of, IsLegal};
ghost use Rattle.wx_shared.specs.Works.{CopiesIn, AsksIn, host_is_over};

use crate::shared::Shared;
use wx_broker::Broker;
use wx_id::{EntryNo, HostNo, NoMemory};
use wx_machine::JsonText;
use wx_turn::Work;

/// A copy of the text of an entry.
#[derive(Drop)]
pub struct Copying {
    pub entry: EntryNo,
}

impl Work<Shared> for Copying {
    type Answer = Result<Option<JsonText>, NoMemory>;

    ghost relates = { λ old new world marks mark copy. CopiesIn old.entry world marks mark copy };

    fn act(&mut self, state: &mut Shared) -> Result<Option<JsonText>, NoMemory> {
        state.turns += 1;
        copy_in(&state.broker, self.entry)
    }
}

/// A copy of the text of an entry, where there is one.
fn copy_in(broker: &Broker, e: EntryNo) -> Result<Option<JsonText>, NoMemory>
    ensures legal { IsLegal broker.now.world broker.now.entries }
    ensures copied { IfOk result (λ copy. copy ≡ text_of (reverse broker.now.entries) e) }
{
    match broker.journal().text_of(e) {
        Some(text) => Ok(Some(text.try_clone()?)),
        None => Ok(None),
    }
}

/// Whether workers are to stop, or the worker of this host.
#[derive(Drop)]
pub struct Asking {
    pub host: Option<HostNo>,
}

impl Work<Shared> for Asking {
    type Answer = bool;

    ghost relates = { λ old new world marks mark stop. AsksIn old.host world marks mark stop };

    fn act(&mut self, state: &mut Shared) -> bool {
        state.turns += 1;
        let _legal = state.broker.journal();
        is_told_to_stop(state, self.host)
    }
}

/// Whether the flag is set, or this host has ended.
fn is_told_to_stop(state: &Shared, host: Option<HostNo>) -> bool
    ensures { result ≡ (state.now.stop || host_is_over (reverse state.now.broker.entries) host) }
{
    state.stop
        || match host {
            Some(h) => state.broker.has_ended(h),
            None => false,
        }
}
