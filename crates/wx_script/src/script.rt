//! A script: the commands of one endpoint.
ghost use Rattle.std.specs.Prelude.{◌≡◌, [], ◌∷◌, ◌++◌, length, slice_get, option_copied, OnOk, OnErr};

use std::alloc::{AllocError, Global};
use std::marker::Model;
use wx_context::{Listens, Target};
use wx_id::{ChannelNo, EntryNo, RequestNo, Utf8Text};
use wx_machine::JsonText;

/// A variable of a script. Channels, requests that it asks and requests that it receives have variables of their own,
/// each sort numbered from 0 in the order of first binding.
#[derive(Clone, Copy, Debug, PartialEq, Eq)]
pub struct Var(pub u32);

/// A request that came, and the entry that delivered it, which carries its text.
#[derive(Clone, Copy, Debug, PartialEq, Eq)]
pub struct Received {
    pub request: RequestNo,
    pub entry: EntryNo,
}

/// What is answered by the text that it came with.
#[derive(Clone, Copy, Debug, PartialEq, Eq)]
pub enum Heard {
    /// A message on this channel, by a `post`.
    Message(ChannelNo),
    /// This request, by a `reply`.
    Request(RequestNo),
}

/// What a command does once.
#[derive(Debug, Drop)]
pub enum Act {
    /// One `listen`.
    Listen(Listens),
    /// One `connect` with a port name; binds the variable to the channel.
    Connect(Var, Target, Utf8Text),
    /// One `post` on the variable's channel.
    Post(Var, JsonText),
    /// One `disconnect` of the variable's channel.
    Disconnect(Var),
    /// One `send`; binds the variable to the request that it asks.
    Send(Var, Target, JsonText),
    /// One `reply` to the variable's request, which was received.
    Reply(Var, JsonText),
    /// The same with the request's own text.
    ReplySame(Var),
    /// One `decline` of the variable's request, which was received.
    Decline(Var),
    /// One `connect_native` of the host of that name; binds the variable to the channel.
    Native(Var, Utf8Text),
    /// One `send_native` to the host of that name; binds the variable to the request that it asks.
    Ask(Var, Utf8Text, JsonText),
    /// One `take`, whatever it answers.
    Take,
    /// Takes until a channel is connected; binds the variable to it.
    AwaitConnect(Var),
    /// Takes until a message comes on the variable's channel, or it is disconnected.
    AwaitMessage(Var),
    /// Takes until a request comes; binds the variable to it.
    AwaitRequest(Var),
    /// Takes until the variable's request, which it asked, is replied to or closed.
    AwaitReply(Var),
    /// Takes until the variable's channel is disconnected.
    AwaitClose(Var),
    /// Takes until so many messages and requests came, and answers each by its own text: a message by a `post` on its
    /// channel, a request by a `reply`.
    Echo(u32),
}

/// A command of a script.
#[derive(Debug, Drop)]
pub enum Command {
    /// The act, once.
    Plain(Act),
    /// The act, so many times.
    Repeat(u32, Act),
}

/// The commands of an endpoint. Contracts see their list.
#[derive(Debug, Drop)]
pub struct Script {
    commands: Vec<Command>,
}

impl Model for Script {
    ghost use Rattle.std.specs.Prelude.{List};
    ghost use Rattle.wx_script.specs.declared.script.Command.{Command};

    ghost Value = { List Command };

    ghost view = { λ script. script.commands.items };
}

impl Script {
    /// The script without commands.
    pub fn new(alloc: Global) -> Script
        ensures { result ≡ [] }
    {
        Script {
            commands: Vec::new(alloc),
        }
    }

    /// Adds a command after the others.
    pub fn push(&mut self, command: Command) -> Result<(), AllocError>
        ensures ok { OnOk result (self.new ≡ self.old ++ command ∷ []) }
        ensures err { OnErr result (self.new ≡ self.old) }
    {
        self.commands.push(command)?;
        Ok(())
    }

    /// How many commands it has.
    pub fn len(&self) -> u64
        ensures { result ≡ length self.now }
    {
        self.commands.len() as u64
    }

    /// The i-th command, from 0.
    pub fn command(&self, i: u64) -> Option<&Command>
        ensures { option_copied result ≡ slice_get self.now i }
    {
        self.commands.get(i as usize)
    }

    /// Its commands in order.
    pub fn commands(&self) -> &[Command]
        ensures { result.now ≡ self.now }
    {
        self.commands.as_slice()
    }
}
