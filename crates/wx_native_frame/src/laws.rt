//! The laws of the reader: one split, and one answer.
ghost use Rattle.std.specs.Prelude.{◌≡◌, ℕ, ◌<◌, ◌^◌, List, [], ◌∷◌, ◌++◌};
ghost use Rattle.wx_native_frame.specs.Frames.{IsFrame, IsTrouble, IsUnderWay, EndsFrame};
ghost use Rattle.wx_native_frame.specs.Splits.{IsSplit};
ghost use Rattle.wx_native_frame.specs.declared.FrameFault.{FrameFault};

use wx_json::one_fault;

/// A stream has at most one split. What a reader handed out and has in hand is the split of all bytes that it used: so
/// it is at the start, and each answer of `FrameReader::step` keeps it so.
pub fn one_split()
    ensures one { (limit : ℕ) (stream : List ℕ) (texts others : List (List ℕ)) (rest other : List ℕ) → limit < 2 ^ 32 →
        IsSplit limit stream texts rest → IsSplit limit stream others other → (texts ≡ others) × (rest ≡ other) }
    ensures start { (limit : ℕ) → IsSplit limit [] [] [] }
    ensures frame { (limit : ℕ) (stream : List ℕ) (texts : List (List ℕ)) (rest more t : List ℕ) →
        IsSplit limit stream texts rest → IsFrame limit (rest ++ more) t
        → IsSplit limit (stream ++ more) (texts ++ t ∷ []) [] }
    ensures whole { (limit : ℕ) (stream : List ℕ) (texts : List (List ℕ)) (rest more : List ℕ) →
        IsSplit limit stream texts rest → IsUnderWay (rest ++ more) limit
        → IsSplit limit (stream ++ more) texts (rest ++ more) }
    ensures fault { (limit : ℕ) (stream : List ℕ) (texts : List (List ℕ)) (rest more : List ℕ) (f : FrameFault) →
        limit < 2 ^ 32 → IsSplit limit stream texts rest → IsTrouble (rest ++ more) limit f
        → IsSplit limit (stream ++ more) texts (rest ++ more) }
{}

/// Bytes and a piece after them have at most one of the answers of `FrameReader::step`, want of memory left aside: a
/// frame ends in one place with one text, and then there is no trouble; and all trouble is one.
pub fn one_answer()
    ensures frame { (limit : ℕ) (bytes piece : List ℕ) (used other : ℕ) (t u : List ℕ) →
        EndsFrame limit bytes piece used t → EndsFrame limit bytes piece other u → (used ≡ other) × (t ≡ u) }
    ensures no_trouble { (limit : ℕ) (bytes piece : List ℕ) (used : ℕ) (t : List ℕ) (f : FrameFault) → limit < 2 ^ 32 →
        EndsFrame limit bytes piece used t → ¬ IsTrouble (bytes ++ piece) limit f }
    ensures trouble { (bytes : List ℕ) (limit : ℕ) (f g : FrameFault) →
        IsTrouble bytes limit f → IsTrouble bytes limit g → f ≡ g }
{
    one_fault();
}
