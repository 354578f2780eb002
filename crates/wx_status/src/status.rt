//! What the program answers, and the number with which it ends.
ghost use Rattle.std.specs.Prelude.{◌≡◌};
ghost use Rattle.wx_status.specs.Status.{status_number};

use wx_journal_read::JournalFault;
use wx_match_pattern::PatternFault;
use wx_script::{SceneKind, SpentWho};
use wx_world::FileKind;

/// Why the input of a command is refused.
#[derive(Clone, Copy, Debug, PartialEq, Eq)]
pub enum InputKind {
    /// There is no such file.
    Missing,
    /// The file has more than 67,108,864 bytes.
    Large,
    /// The word is no match pattern.
    Pattern(PatternFault),
    /// The word has more than 67,108,864 bytes, or is no URL by the URL Standard's parser.
    Url,
    /// The bytes are no journal's text.
    Journal(JournalFault),
}

/// What the program answers.
#[derive(Clone, Copy, Debug, PartialEq, Eq)]
pub enum Status {
    /// Every script ended, and the journal's text was written whole; of another command, yes.
    Done,
    /// Some script has not ended, each such script waits with nothing pending, and the journal's text was written
    /// whole.
    Stalled,
    /// A command's answer is no, and was written whole.
    No,
    /// The words have none of the forms.
    Usage,
    /// A file could not be read.
    ReadFault,
    /// There is no such scene, it is too large, or its bytes are no scene. Lines are numbered from 1; 0 names none.
    SceneRefused { line: u64, kind: SceneKind },
    /// The input of a command is refused.
    InputRefused(InputKind),
    /// A manifest that the scene names is refused; `file` is its place among the files that the scene names, from 0.
    ManifestRefused { file: u64, kind: FileKind },
    /// A text or a line was not written whole.
    WriteFault,
    /// Memory was refused.
    NoMemory,
    /// An endpoint or a native host has made 65,536 entries and has not ended, and the journal's text was written
    /// whole.
    Spent(SpentWho),
}

impl Status {
    /// The number with which the program ends.
    pub fn number(self) -> u8
        ensures { result ≡ status_number self }
    {
        match self {
            Status::Done => 0,
            Status::Stalled => 1,
            Status::No => 1,
            Status::Usage => 2,
            Status::ReadFault => 3,
            Status::SceneRefused { .. } => 4,
            Status::InputRefused(_) => 4,
            Status::ManifestRefused { .. } => 5,
            Status::WriteFault => 6,
            Status::NoMemory => 7,
            Status::Spent(_) => 8,
        }
    }
}
