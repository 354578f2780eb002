//! What the rows of a file ask, and who answers it.

use crate::{contexts, frames, hosts, ids, json, manifests, patterns, trees, worlds};
use std::alloc::Global;
use wx_id::NoMemory;

/// An answer in words.
pub type Answer = Result<String, NoMemory>;

/// What is asked of texts that may be any bytes.
#[derive(Clone, Copy)]
pub enum OfBytes {
    ExtensionId,
    HostName,
    Object,
    Manifest,
    HostManifest,
    Json,
    Frames,
}

/// What is asked of texts in UTF-8.
#[derive(Clone, Copy)]
pub enum OfText {
    Pattern,
    Match,
    PagePath,
    WebUrl,
    Sender,
    Key,
    ManifestContent,
    HostContent,
    World,
}

/// What the rows of a file ask of their texts, and of what is given for them.
#[derive(Clone, Copy)]
pub enum Subject {
    Bytes(OfBytes),
    Text(OfText),
}

fn answer_to_bytes(alloc: Global, subject: OfBytes, given: &[u8], bytes: &[u8]) -> Answer {
    match subject {
        OfBytes::ExtensionId => ids::extension_id(alloc, bytes),
        OfBytes::HostName => ids::host_name(alloc, bytes),
        OfBytes::Object => trees::object(alloc, bytes),
        OfBytes::Manifest => manifests::manifest(alloc, bytes),
        OfBytes::HostManifest => hosts::manifest(alloc, given, bytes),
        OfBytes::Json => json::json(alloc, bytes),
        OfBytes::Frames => frames::frames(alloc, bytes),
    }
}

fn answer_to_text(alloc: Global, subject: OfText, given: &str, text: &str) -> Answer {
    match subject {
        OfText::Pattern => patterns::pattern(alloc, text),
        OfText::Match => patterns::matched(alloc, given, text),
        OfText::PagePath => contexts::page_path(alloc, text),
        OfText::WebUrl => contexts::web_url(alloc, text),
        OfText::Sender => contexts::sender(alloc, text),
        OfText::Key => trees::key(alloc, given, text),
        OfText::ManifestContent => manifests::content(alloc, given, text),
        OfText::HostContent => hosts::content(alloc, given, text),
        OfText::World => worlds::world(alloc, given, text),
    }
}

/// The answer to a row.
pub fn answer(alloc: Global, subject: Subject, given: &[u8], text: &[u8]) -> Answer {
    match subject {
        Subject::Bytes(subject) => answer_to_bytes(alloc, subject, given, text),
        Subject::Text(subject) => match (str::from_utf8(given), str::from_utf8(text)) {
            (Ok(given), Ok(text)) => answer_to_text(alloc, subject, given, text),
            _ => Ok(String::from_str(alloc, "not UTF-8")?),
        },
    }
}
