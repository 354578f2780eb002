//! The members of `matches` in `externally_connectable`.
ghost use Rattle.std.specs.Prelude.{◌≡◌, ◌≢◌, Ok, Err, IfOk, IfErr, IsTrue, ◌↔◌};
ghost use Rattle.wx_match_pattern.specs.Reading.{pattern_of};
ghost use Rattle.serde_json.specs.View.{view};
ghost use Rattle.wx_manifest.specs.ExtensionManifests as manifests;
ghost use Rattle.wx_manifest.specs.ExtensionManifests.{judged, patterns_from};

use crate::faults::{Key, ManifestFault};
use crate::keys::texts_of;
use serde_json::Value;
use std::alloc::Global;
use url::Url;
use wx_manifest_tree::Texts;
use wx_match_pattern::{Pattern, PatternReadFault};

/// Whether some pattern matches the URL.
#[tactic(auto, using(crate::proofs::ManifestLemmas::meets_here, crate::proofs::ManifestLemmas::meets_later))]
pub(crate) fn any_matches(patterns: &[Pattern], url: &Url) -> bool
    ensures { IsTrue result ↔ manifests.SomeMeets patterns.now url.now }
{
    for pattern in patterns {
        if pattern.matches(url) {
            return true;
        }
    }
    false
}

/// The pattern that this text is, which must not be too broad.
fn read_pattern(alloc: Global, text: &str, place: u64) -> Result<Pattern, ManifestFault>
    ensures ok { IfOk result (λ pattern. judged place (pattern_of text.now) ≡ Ok pattern) }
    ensures err { IfErr result (λ fault. fault ≢ ManifestFault.NoMemory
        → judged place (pattern_of text.now) ≡ Err fault) }
{
    match Pattern::read(alloc, text) {
        Ok(pattern) => {
            if pattern.too_broad() {
                Err(ManifestFault::TooBroad(place))
            } else {
                Ok(pattern)
            }
        }
        Err(PatternReadFault::Bad(fault)) => Err(ManifestFault::BadPattern(place, fault)),
        Err(PatternReadFault::NoMemory) => Err(ManifestFault::NoMemory),
    }
}

/// The members of `matches`, each a pattern that is not too broad, judged one by one.
#[tactic(auto, using(crate::proofs::ManifestLemmas::patterns_more, crate::proofs::ManifestLemmas::patterns_end))]
fn read_patterns(alloc: Global, texts: &Texts<'_>) -> Result<Vec<Pattern>, ManifestFault>
    ensures ok { IfOk result (λ patterns. patterns_from 0 texts.now ≡ Ok patterns.items) }
    ensures err { IfErr result (λ fault. fault ≢ ManifestFault.NoMemory
        → patterns_from 0 texts.now ≡ Err fault) }
{
    let mut patterns = Vec::new(alloc);
    for place in 0..texts.len() {
        let pattern = match read_pattern(alloc, texts.at(place), place as u64) {
            Ok(pattern) => pattern,
            Err(fault) => return Err(fault),
        };
        if patterns.push(pattern).is_err() {
            return Err(ManifestFault::NoMemory);
        }
    }
    Ok(patterns)
}

/// The members of `matches` in `externally_connectable`.
#[tactic(auto, unfolding(crate::specs::ExtensionManifests::patterns_of, crate::specs::ExtensionManifests::texts_of))]
pub(crate) fn patterns_of(alloc: Global, tree: &Value) -> Result<Vec<Pattern>, ManifestFault>
    ensures ok { IfOk result (λ patterns. manifests.patterns_of (view tree.now) ≡ Ok patterns.items) }
    ensures err { IfErr result (λ fault. fault ≢ ManifestFault.NoMemory
        → manifests.patterns_of (view tree.now) ≡ Err fault) }
{
    match texts_of(tree, Key::Matches) {
        Ok(None) => Ok(Vec::new(alloc)),
        Ok(Some(texts)) => read_patterns(alloc, &texts),
        Err(fault) => Err(fault),
    }
}
