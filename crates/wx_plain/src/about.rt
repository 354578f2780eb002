//! What the program says of itself.
ghost use Rattle.std.specs.Prelude.{◌≡◌, Ok};
ghost use Rattle.wx_plain.specs.About.{text_answer};
ghost use Rattle.wx_plain.specs.View.{Says};

use crate::verdict::{Output, Refusal};
use std::alloc::Global;

/// The commands, one line each.
pub(crate) const HELP: &str = "wx: runs scenes of browser extensions over a messaging broker

  wx run SCENE            runs the scene, and prints its journal
  wx run --rounds SCENE   the same in rounds, on one thread
  wx match PATTERN URL    prints whether the match pattern meets the URL
  wx frames FILE          prints the native messages in the file
  wx report FILE          prints what became of each channel and request
  wx --help               prints this
  wx --version            prints the version

SCENE and FILE may be -, for standard input. README.md, beside the script wx,
tells of scenes, journals and statuses.
";

/// The version.
pub(crate) const VERSION: &str = "wx 0.1.0\n";

/// An answer that prints this text.
pub(crate) fn answer(alloc: Global, text: &str) -> Result<Output, Refusal>
    ensures { Says (λ answer. answer ≡ text_answer text.now) result }
{
    match Vec::from_slice(alloc, text.as_bytes()) {
        Ok(text) => Ok(Output { yes: true, text }),
        Err(_) => Err(Refusal::NoMemory),
    }
}
