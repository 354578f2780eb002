//! Worked examples of the definitions and the law of the lines' spelling, each the contract of a function that
//! does nothing.
ghost use Rattle.std.specs.Prelude.{◌≡◌, Ok, Err, [], ◌∷◌, ◌++◌, codes};
ghost use Rattle.wx_script.specs.declared.scene.SceneKind.TheVariants as kind;
ghost use Rattle.wx_script.specs.Examples.{HasFault, IsScene, ReadsTheSpelling, HasOneSpelling, TwoPages};
ghost use Rattle.wx_script.specs.Examples.{NumberedVariables, CommentsPassedOver, Awaiting, RepeatBinds};
ghost use Rattle.wx_script.specs.Examples.{LastLineUnended, Requests, OneName, Natives, Targets, Files};
ghost use Rattle.wx_script.specs.Examples.{Documents, NoWebUrl, without_files, extension_x};
ghost use Rattle.wx_script.specs.Scene.{scene_of, fault_at};

/// Every line has one spelling.
#[tactic(auto, using(crate::proofs::Again::line_again))]
pub fn one_spelling()
    ensures read { ReadsTheSpelling }
    ensures spelled { HasOneSpelling }
{}

/// Scenes that are read.
#[tactic(auto, unfolding(crate::proofs::OnLiterals::scenes_on_literals))]
pub fn scenes()
    ensures head_line_alone { IsScene [] [] [] }
    ensures two_pages { TwoPages }
    ensures numbered_variables { NumberedVariables }
    ensures head_line_without_line_feed { scene_of (codes "wx scene 1 chrome") ≡ Ok (without_files [] []) }
    ensures last_line_without_line_feed { LastLineUnended }
    ensures comments { CommentsPassedOver }
    ensures awaits_repeats_and_echoes { Awaiting }
    ensures repeat_binds { RepeatBinds }
{}

/// Scenes of requests, native hosts, targets, files, content scripts and web pages that are read.
#[tactic(auto, unfolding(crate::proofs::OnLiterals::scenes_on_literals))]
pub fn requests_targets_and_files()
    ensures requests { Requests }
    ensures one_name_for_each_sort { OneName }
    ensures natives { Natives }
    ensures targets { Targets }
    ensures files { Files }
    ensures documents { Documents }
    ensures no_web_url { NoWebUrl }
{}

/// The first faulty line of scenes, and what is wrong with it.
#[tactic(auto, unfolding(crate::proofs::OnLiterals::scenes_on_literals))]
pub fn faults()
    ensures no_bytes { scene_of [] ≡ Err (fault_at 1 kind.Head) }
    ensures behind_comments { HasFault ([] ∷ codes "# take" ∷ [] ∷ codes "take" ∷ []) 5 kind.Form }
    ensures head_line_twice { HasFault (codes "wx scene 1 chrome" ∷ []) 2 kind.Form }
    ensures last_line_without_line_feed { scene_of (codes "wx scene 1 chrome" ++ 10 ∷ codes "page p x /p")
        ≡ Err (fault_at 2 kind.Unknown) }
    ensures take_above_every_endpoint { HasFault (codes "  take" ∷ []) 2 kind.Order }
    ensures short_id { HasFault (codes "extension x abc" ∷ []) 2 kind.Id }
    ensures id_again { HasFault
        (extension_x ∷ codes "extension y aaaaaaaaaaaaaaaaaaaaaaaaaaaaaaaa" ∷ []) 3 kind.Repeated }
    ensures undeclared_extension { HasFault (codes "page p x /p" ∷ []) 2 kind.Unknown }
    ensures two_spaces { HasFault (extension_x ∷ codes "page  p x /p" ∷ []) 3 kind.Form }
    ensures post_without_connect { HasFault
        (extension_x ∷ codes "page p x /p" ∷ codes "  post ch 1" ∷ []) 4 kind.Unbound }
    ensures await_without_connect { HasFault
        (extension_x ∷ codes "page p x /p" ∷ codes "  await message ch" ∷ []) 4 kind.Unbound }
    ensures repeat_of_repeat { HasFault
        (extension_x ∷ codes "page p x /p" ∷ codes "  repeat 2 repeat 2 take" ∷ []) 4 kind.Form }
    ensures leading_zero { HasFault (extension_x ∷ codes "page p x /p" ∷ codes "  repeat 01 take" ∷ []) 4 kind.Form }
    ensures no_times { HasFault (extension_x ∷ codes "page p x /p" ∷ codes "  echo 0" ∷ []) 4 kind.Form }
    ensures no_json_text { HasFault
        (extension_x ∷ codes "page p x /p" ∷ codes "  connect ch own" ∷ codes "  post ch {" ∷ []) 5 kind.Json }
    ensures unbound_before_json { HasFault
        (extension_x ∷ codes "page p x /p" ∷ codes "  post ch {" ∷ []) 4 kind.Unbound }
    ensures files_of_one_name { HasFault (codes "host a/e.json" ∷ codes "host b/e.json" ∷ []) 3 kind.Repeated }
    ensures another_sort_of_variable { HasFault
        (extension_x ∷ codes "page p x /p" ∷ codes "  send r own 1" ∷ codes "  reply r 1" ∷ []) 5 kind.Unbound }
    ensures native_channel_awaited_as_a_request { HasFault
        (extension_x ∷ codes "page p x /p" ∷ codes "  native n e" ∷ codes "  await reply n" ∷ []) 5 kind.Unbound }
    ensures request_of_a_host_used_as_a_channel { HasFault
        (extension_x ∷ codes "page p x /p" ∷ codes "  ask r e 1" ∷ codes "  post r 1" ∷ []) 5 kind.Unbound }
    ensures ask_without_json { HasFault (extension_x ∷ codes "page p x /p" ∷ codes "  ask r e" ∷ []) 4 kind.Form }
    ensures ask_of_no_json_text { HasFault (extension_x ∷ codes "page p x /p" ∷ codes "  ask r e {" ∷ []) 4 kind.Json }
    ensures flags_in_another_order { HasFault
        (extension_x ∷ codes "page p x /p" ∷ codes "  listen message connect" ∷ []) 4 kind.Form }
    ensures frame_without_json { HasFault
        (extension_x ∷ codes "page p x /p" ∷ codes "  send r tab 7 frame 1" ∷ []) 4 kind.Form }
    ensures frame_behind_two_spaces { HasFault
        (extension_x ∷ codes "page p x /p" ∷ codes "  send r tab 7  frame 1" ∷ []) 4 kind.Json }
    ensures unknown_before_json { HasFault
        (extension_x ∷ codes "page p x /p" ∷ codes "  send r ext y {" ∷ []) 4 kind.Unknown }
    ensures repeated_before_unknown { HasFault
        (extension_x ∷ codes "page p x /p" ∷ codes "page p nobody /p" ∷ []) 4 kind.Repeated }
{}
