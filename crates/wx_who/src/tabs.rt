//! The tabs in which the endpoints of a scene stand.
ghost use Rattle.std.specs.Prelude.{◌≡◌, IfOk, OnOk, slice_get};
ghost use Rattle.wx_who.specs.Tabs as spec;

use std::alloc::{AllocError, Global};
use wx_context::Context;
use wx_id::TabId;
use wx_script::SceneEndpoint;

/// The tab in which a context stands; a page of an extension stands in none.
fn tab_of(x: &Context) -> Option<TabId>
    ensures { result ≡ spec.tab_of x.now }
{
    match x {
        Context::Page { .. } => None,
        Context::Content { tab, .. } | Context::Web { tab, .. } => Some(*tab),
    }
}

/// How many of the tabs in front have a lower number.
fn below(tabs: &[TabId], tab: TabId) -> usize
    ensures { result ≡ spec.below tab tabs.now }
{
    tabs.iter().take_while(|t| t.0 < tab.0).count()
}

/// Whether the tab stands at that place.
fn stands_at(tabs: &[TabId], place: usize, tab: TabId) -> bool
    ensures { result ≡ spec.is_tab tab (slice_get tabs.now place) }
{
    match tabs.get(place) {
        Some(t) => *t == tab,
        None => false,
    }
}

/// Puts a tab at its place among rising ones, where it is not there.
#[tactic(auto, using(crate::proofs::TabLemmas::with_tab_is, crate::proofs::TabLemmas::below_le))]
fn add_tab(tabs: &mut Vec<TabId>, tab: TabId) -> Result<(), AllocError>
    ensures { OnOk result (tabs.new.items ≡ spec.with_tab tab tabs.old.items) }
{
    let place = below(tabs, tab);
    if stands_at(tabs, place, tab) {
        return Ok(());
    }
    Ok(tabs.insert(place, tab)?)
}

/// The tabs in which these endpoints stand, rising and each once.
pub(crate) fn tabs_of(alloc: Global, endpoints: &[SceneEndpoint]) -> Result<Vec<TabId>, AllocError>
    ensures { IfOk result (λ tabs. tabs.items ≡ spec.tabs_of endpoints.now) }
{
    let mut tabs = Vec::new(alloc);
    for endpoint in endpoints {
        if let Some(tab) = tab_of(&endpoint.context) {
            add_tab(&mut tabs, tab)?;
        }
    }
    Ok(tabs)
}
