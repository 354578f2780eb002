//! The laws of the table, and tables worked out; each function does nothing when it runs.
ghost use Rattle.std.specs.Prelude.{◌≡◌, ◌≢◌, List, ℕ, IsTrue};
ghost use Rattle.std.specs.List.{list_any};
ghost use Rattle.wx_id.specs.declared.numbers.TabId.{TabId};
ghost use Rattle.wx_id.specs.HostNames.{is_host_name};
ghost use Rattle.wx_context.specs.declared.contexts.Context.{Context};
ghost use Rattle.wx_external.specs.World.{WorldLists, holds_name};
ghost use Rattle.wx_external.specs.Gate.{native_gate_of};
ghost use Rattle.wx_external.specs.declared.native.NativeVerdict.TheVariants as native;
ghost use Rattle.wx_script.specs.declared.scene.SceneEndpoint.{SceneEndpoint};
ghost use Rattle.wx_who.specs.Heard.{ReceivesWhereNamed};
ghost use Rattle.wx_who.specs.Tabs.{is_among, is_rising, stands_in, tabs_of};
ghost use Rattle.wx_who.specs.Worked.{FromOutsideTable, NativeTable};

/// The law of receivers: whom a line names are those who would receive the call if every endpoint had come in and
/// listened to everything.
#[tactic(auto, using(crate::proofs::HeardLemmas::receives))]
pub fn receives_where_named()
    ensures { ReceivesWhereNamed }
{}

/// The law of tabs: they rise, each stands once, and they are those in which an endpoint stands.
#[tactic(auto, using(crate::proofs::TabLemmas::tabs_of_rise, crate::proofs::TabLemmas::tabs_of_each))]
pub fn tabs_rise()
    ensures rising { (endpoints : List SceneEndpoint) → IsTrue (is_rising (tabs_of endpoints)) }
    ensures each { (endpoints : List SceneEndpoint) (tab : TabId)
        → is_among tab (tabs_of endpoints) ≡ list_any (stands_in tab) endpoints }
{}

/// The law of hosts: of a host that the world holds, the native gate never says that its name is bad or not found.
#[tactic(auto, using(crate::proofs::HostLemmas::found))]
pub fn hosts_are_found()
    ensures { (world : WorldLists) (caller : Context) (name : List ℕ)
        → IsTrue (holds_name world name) → IsTrue (is_host_name name)
        → (native_gate_of world caller name ≢ native.BadHostName)
        × (native_gate_of world caller name ≢ native.HostNotFound) }
{}

/// The table of two extensions without manifests, a page of each and a web page, worked out.
pub fn from_outside_table()
    ensures { FromOutsideTable }
{}

/// The table of a page that a native host lets in, worked out.
pub fn native_table()
    ensures { NativeTable }
{}
