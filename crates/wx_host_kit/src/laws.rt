//! The laws of what a kit reads: the echo writes it, and it decides the end.
ghost use Rattle.wx_host_kit.specs.Echoes.{EchoLaw};
ghost use Rattle.wx_host_kit.specs.Ends.{OneEnd};

/// The echo law: the texts whose frames a kit wrote with the echo are the first of those whose frames it read, and what
/// it wrote is a front of what it read.
pub fn echo_law()
    ensures { EchoLaw }
{}

/// The ends exclude each other: what was read decides which it is, unless a write failed or memory was refused.
pub fn one_end()
    ensures { OneEnd }
{}
