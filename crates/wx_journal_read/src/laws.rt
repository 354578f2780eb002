//! What holds of the texts of journals, each the contract of a function that does nothing.
ghost use Rattle.std.specs.Prelude.{◌≡◌, ◌<◌, ◌^◌, ◌++◌, ℕ, List, length, codes};
ghost use Rattle.wx_machine.specs.declared.entries.Entry.{Entry};
ghost use Rattle.wx_journal_text.specs.Text.{entry_text, journal_text};
ghost use Rattle.wx_journal_read.specs.declared.fault.JournalKind.TheVariants.{Head, Line};
ghost use Rattle.wx_journal_read.specs.Faults.{IsFault};
ghost use Rattle.wx_journal_read.specs.Fits.{EntryFits, JournalFits};

/// Different journals have different texts.
pub fn different_texts()
    ensures { (j k : List Entry) → JournalFits j → JournalFits k → length (journal_text j) < 2 ^ 64
        → journal_text j ≡ journal_text k → j ≡ k }
{}

/// No entry's line begins another.
pub fn no_line_begins_another()
    ensures { (e f : Entry) (x y : List ℕ) → EntryFits e → EntryFits f → length (entry_text e ++ x) < 2 ^ 64
        → entry_text e ++ x ≡ entry_text f ++ y → (e ≡ f) × (x ≡ y) }
{}

/// Worked examples of faults: a line without its line feed, a number with a leading zero, and no head line.
pub fn worked_faults()
    ensures line_feed { IsFault (codes "wx journal 1 chrome\nc0 take -> empty") (record { place = 20; kind = Line }) }
    ensures leading_zero { IsFault (codes "wx journal 1 chrome\nc00 take -> empty\n") (record { place = 20; kind = Line }) }
    ensures head_line { IsFault (codes "c0 take -> empty\n") (record { place = 0; kind = Head }) }
{}
