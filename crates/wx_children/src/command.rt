//! The command that starts a host's program.
ghost use Rattle.std.specs.Prelude.{◌≡◌, [], ◌∷◌, ◌++◌, Some, IfOk};
ghost use Rattle.std.specs.Process.{command_program, command_args, command_dir};

use std::alloc::{AllocError, Global};
use std::process::{Command, Stdio};
use wx_host_launch::Arguments;

/// The folder in which a file with an absolute path stands.
pub(crate) fn folder_of(path: &str) -> &str {
    match path.rsplit_once('/') {
        Some((folder, _)) if !folder.is_empty() => folder,
        _ => "/",
    }
}

/// The command with one more argument.
fn with_argument(command: Command, text: &str) -> Result<Command, AllocError>
    ensures program { IfOk result (λ more. command_program more ≡ command_program command) }
    ensures arguments { IfOk result (λ more. command_args more ≡ command_args command ++ text.now ∷ []) }
{
    let mut command = command;
    command.arg(text)?;
    Ok(command)
}

/// The command of this program with these arguments.
#[tactic(auto, using(crate::proofs::CommandLemmas::take_whole))]
fn with_arguments(alloc: Global, path: &str, arguments: &Arguments) -> Result<Command, AllocError>
    ensures program { IfOk result (λ command. command_program command ≡ path.now) }
    ensures arguments { IfOk result (λ command. command_args command ≡ arguments.now) }
{
    let mut command = Command::new(alloc, path)?;
    let mut at = 0;
    while let Some(text) = arguments.get(at) {
        command = with_argument(command, text)?;
        at += 1;
    }
    Ok(command)
}

/// The command that starts this program with these arguments in this folder, with two pipes. Its environment and its
/// standard error are ours.
pub(crate) fn command_of(
    alloc: Global,
    path: &str,
    folder: &str,
    arguments: &Arguments,
) -> Result<Command, AllocError>
    ensures program { IfOk result (λ command. command_program command ≡ path.now) }
    ensures arguments { IfOk result (λ command. command_args command ≡ arguments.now) }
    ensures folder { IfOk result (λ command. command_dir command ≡ Some folder.now) }
{
    let mut command = with_arguments(alloc, path, arguments)?;
    command.current_dir(folder)?;
    command
        .stdin(Stdio::piped())
        .stdout(Stdio::piped())
        .stderr(Stdio::inherit());
    Ok(command)
}
