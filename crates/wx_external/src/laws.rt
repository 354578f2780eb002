//! The laws of the gates, and verdicts worked out.
ghost use Rattle.std.specs.Prelude.{◌↔◌, IsTrue};
ghost use Rattle.url.specs.Parts.{Parts};
ghost use Rattle.wx_match_pattern.specs.Pattern.{PatternParts};
ghost use Rattle.wx_match_pattern.specs.Meets.{Meets};
ghost use Rattle.wx_manifest.specs.ExtensionManifests.{Manifest, AdmitsUrl};
ghost use Rattle.wx_external.specs.Matching.{meets, admits_url};
ghost use Rattle.wx_external.specs.Worked.{VerdictsByManifest, VerdictsOfAnyWorld, NativeVerdictsInOrder};

/// The law of the match test: it is true exactly where the pattern meets the URL, so the gate lets a web page in
/// exactly where some pattern of `externally_connectable.matches` meets the page's URL. It does nothing when it runs.
pub fn match_test()
    ensures pattern { (pattern : PatternParts) (url : Parts) → IsTrue (meets pattern url) ↔ Meets pattern url }
    ensures manifest { (manifest : Manifest) (url : Parts) → IsTrue (admits_url manifest url) ↔ AdmitsUrl manifest url }
{}

/// What calls to an extension get by its `externally_connectable`, worked out.
pub fn verdicts_by_manifest()
    ensures { VerdictsByManifest }
{}

/// What callers get whatever the world holds, worked out.
pub fn verdicts_of_any_world()
    ensures { VerdictsOfAnyWorld }
{}

/// Each verdict of the native gate once, worked out.
pub fn native_verdicts_in_order()
    ensures { NativeVerdictsInOrder }
{}
