//! What a command that makes no run comes to, before anything is written.
use wx_status::InputKind;

/// What a command prints, and whether that is yes.
#[derive(Drop)]
pub struct Output {
    pub yes: bool,
    pub text: Vec<u8>,
}

/// Why a command has no output.
#[derive(Clone, Copy)]
pub enum Refusal {
    /// Its input is refused.
    Input(InputKind),
    /// Memory was refused.
    NoMemory,
}

/// What the call answers before it writes.
#[derive(Drop)]
pub enum Verdict<'a> {
    /// The words ask for no command.
    Usage,
    /// This file could not be read.
    ReadFault(&'a str),
    /// The command's input is refused.
    Refused(InputKind),
    /// Memory was refused.
    NoMemory,
    /// The command answers this.
    Answered(Output),
}
