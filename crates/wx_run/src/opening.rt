//! The opening of a run: each endpoint of the scene comes in, in order.
ghost use Rattle.std.specs.Prelude.{◌≡◌, [], IfOk, OnErr, OnOk, length, reverse, is_some};
ghost use Rattle.wx_machine.specs.Answers.{IsLegal};
ghost use Rattle.wx_machine.specs.Contexts.{contexts};
ghost use Rattle.wx_run.specs.Opening.{first_listen};
ghost use Rattle.wx_run.specs.Opened.{AreBelow, IsOpened, OpenedSoFar};
ghost use Rattle.wx_broker.specs.Steps.{Appends, Stays};
ghost use Rattle.wx_machine.specs.declared.entries.Who.TheVariants as Who;
ghost use Rattle.wx_machine.specs.declared.entries.Call.TheVariants as Call;
ghost use Rattle.wx_machine.specs.declared.entries.Answer.TheVariants as Answer;

use crate::step::{Endpoint, make_turn};
use std::alloc::Global;
use wx_broker::Broker;
use wx_context::Context;
use wx_desk::BrokerDesk;
use wx_id::{ContextNo, NoMemory};
use wx_script::{Act, Command, Scene, SceneEndpoint};

/// Whether the first command is a `listen` that is not repeated.
fn begins_with_listen(commands: &[Command]) -> bool
    ensures { result ≡ is_some (first_listen commands.now) }
{
    match commands.first() {
        Some(Command::Plain(Act::Listen(_))) => true,
        _ => false,
    }
}

/// Lets a context in.
fn enter(broker: &mut Broker, context: &Context) -> Result<ContextNo, NoMemory>
    ensures entered { IfOk result (λ c.
        Appends broker.old broker.new (Who.Context c) (Call.Enter context.now) (Answer.Entered c)) }
    ensures refused { OnErr result (Stays broker.old broker.new) }
{
    match broker.enter(context.try_clone()?) {
        Ok(c) => Ok(c),
        Err(_) => Err(NoMemory),
    }
}

/// Lets an endpoint in, and makes its `listen` where its first command is a `listen` that is not repeated.
fn open_one<'a>(
    alloc: Global,
    endpoint: &'a SceneEndpoint,
    desk: &mut BrokerDesk,
) -> Result<Endpoint<'a>, NoMemory>
    requires legal { IsLegal desk.old.broker.world desk.old.broker.entries }
    requires all_in { AreBelow (contexts (reverse desk.old.broker.entries)) (reverse desk.old.broker.entries) }
    ensures opened { IfOk result (λ cursor. IsOpened desk.old.broker.world endpoint.now cursor
        (reverse desk.old.broker.entries) (reverse desk.new.broker.entries)) }
    ensures same_world { OnOk result (desk.new.broker.world ≡ desk.old.broker.world) }
{
    desk.context = enter(&mut desk.broker, &endpoint.context)?;
    let mut opened = Endpoint::new(alloc, &endpoint.script)?;
    if begins_with_listen(endpoint.script.commands()) {
        make_turn(&mut opened, desk)?;
    }
    Ok(opened)
}

/// The opening of a run: lets each endpoint of the scene in, in order.
pub fn open<'a>(
    alloc: Global,
    scene: &'a Scene,
    desk: &mut BrokerDesk,
) -> Result<Vec<Endpoint<'a>>, NoMemory>
    requires { desk.old.broker.entries ≡ [] }
    ensures opened { IfOk result (λ cursors. OpenedSoFar desk.old.broker.world scene.now.endpoints
        (length scene.now.endpoints) cursors.items (reverse desk.new.broker.entries)) }
    ensures same_world { OnOk result (desk.new.broker.world ≡ desk.old.broker.world) }
{
    let mut endpoints = Vec::new(alloc);
    for endpoint in scene.endpoints() {
        let opened = open_one(alloc, endpoint, desk)?;
        if endpoints.push(opened).is_err() {
            return Err(NoMemory);
        }
    }
    Ok(endpoints)
}
