//! Laws of what the commands that make no run answer.
ghost use Rattle.std.specs.Prelude.{◌≡◌, Option, Result};
ghost use Rattle.wx_outside.specs.Shelf.{Files};
ghost use Rattle.wx_status.specs.declared.status.InputKind.{InputKind};
ghost use Rattle.wx_words.specs.Words.{PlainCommand};
ghost use Rattle.wx_plain.specs.Answers.{Answers};
ghost use Rattle.wx_plain.specs.Complete.{IsToldTo};
ghost use Rattle.wx_plain.specs.Output.{Output};

use wx_journal_read::laws::different_texts;
use wx_native_frame::{one_answer, one_split};

/// The law of answers: a command has at most one, where what it reads is told. It does nothing when it runs.
pub fn one_plain_answer()
    ensures { (files : Option Files) (command : PlainCommand) (a b : Result Output InputKind) →
        IsToldTo command files → Answers files command a → Answers files command b → a ≡ b }
{
    one_split();
    one_answer();
    different_texts();
}
