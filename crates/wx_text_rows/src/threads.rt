//! Values of the crates of texts may cross threads.
use std::test::Fail;
use wx_context::{Context, Listens, PagePath, Sender, Target, WebUrl};
use wx_external::{AddFault, Installed, NativeVerdict, Verdict, World};
use wx_host_manifest::{Arguments, HostManifest};
use wx_id::{
    BadId, ChannelNo, ContextNo, End, EntryNo, Event, EventKind, ExtensionId, FrameId, HostName,
    HostNameFault, HostNo, NoMemory, RequestNo, TabId, Utf8Text,
};
use wx_json::{JsonCheck, JsonFault, JsonKind, JsonText};
use wx_manifest::Extension;
use wx_match_pattern::Pattern;
use wx_native_frame::FrameReader;

/// Is compiled where values of the type may cross threads.
fn crosses_threads<T: Send + Sync>() {}

#[test]
fn ids_and_names() {
    crosses_threads::<ExtensionId>();
    crosses_threads::<BadId>();
    crosses_threads::<HostName>();
    crosses_threads::<HostNameFault>();
    crosses_threads::<Utf8Text>();
    crosses_threads::<NoMemory>();
}

#[test]
fn numbers_and_events() {
    crosses_threads::<ContextNo>();
    crosses_threads::<ChannelNo>();
    crosses_threads::<RequestNo>();
    crosses_threads::<HostNo>();
    crosses_threads::<EntryNo>();
    crosses_threads::<TabId>();
    crosses_threads::<FrameId>();
    crosses_threads::<EventKind>();
    crosses_threads::<Event>();
    crosses_threads::<End>();
}

#[test]
fn texts_and_manifests() {
    crosses_threads::<JsonText>();
    crosses_threads::<JsonCheck>();
    crosses_threads::<JsonFault>();
    crosses_threads::<JsonKind>();
    crosses_threads::<FrameReader>();
    crosses_threads::<Extension>();
    crosses_threads::<HostManifest>();
    crosses_threads::<Arguments>();
}

#[test]
fn contexts_and_worlds() {
    crosses_threads::<PagePath>();
    crosses_threads::<WebUrl>();
    crosses_threads::<Context>();
    crosses_threads::<Listens>();
    crosses_threads::<Target>();
    crosses_threads::<Sender>();
    crosses_threads::<World>();
    crosses_threads::<Installed>();
    crosses_threads::<AddFault>();
    crosses_threads::<Verdict>();
    crosses_threads::<NativeVerdict>();
}

#[test]
fn a_pattern(rt: HostRuntime) -> Result<(), Fail> {
    let _pattern = Pattern::read(rt.alloc(), "<all_urls>")?;
    crosses_threads::<Pattern>();
    wx_match_pattern::one_pattern_or_fault();
    Ok(())
}
