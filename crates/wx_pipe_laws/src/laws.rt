//! The law, the contract of a function that does nothing.
ghost use Rattle.wx_pipe_laws.specs.EchoIsGood.{EchoIsGood};

/// A pipe to a host that answers by the echo is good: of a legal journal that the host's record meets `pipe_check` says
/// so.
pub fn echo_is_good()
    ensures { EchoIsGood }
{}
