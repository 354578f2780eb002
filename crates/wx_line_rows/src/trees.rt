//! Objects of JSON, and what stands under their keys.

use crate::answers::Answer;
use crate::words::no_question;
use serde_json::Value;
use std::alloc::Global;
use wx_id::NoMemory;
use wx_manifest_tree::{KeyFault, ReadFault, Texts, read_object, text_at, texts_at};

/// Whether bytes are an object.
pub fn object(alloc: Global, bytes: &[u8]) -> Answer {
    match read_object(alloc, bytes) {
        Ok(_) => Ok(String::from_str(alloc, "read")?),
        Err(ReadFault::NotJson) => Ok(String::from_str(alloc, "not_json")?),
        Err(ReadFault::NoMemory) => Err(NoMemory),
    }
}

fn key_fault(fault: KeyFault) -> &'static str {
    match fault {
        KeyFault::Missing => "missing_key",
        KeyFault::WrongKind => "wrong_kind",
    }
}

/// The texts of an array, with a blank between them.
fn joined(alloc: Global, texts: &Texts<'_>) -> Answer {
    let mut all = String::new(alloc);
    for place in 0..texts.len() {
        if place > 0 {
            all.push_str(" ")?;
        }
        all.push_str(texts.at(place))?;
    }
    Ok(all)
}

/// What stands under a key of a tree: `text KEY` asks for a text, `texts KEY` for an array of them.
fn at_key(alloc: Global, tree: &Value, question: &str) -> Answer {
    match question.split_once(' ') {
        Some(("text", key)) => match text_at(tree, key) {
            Ok(text) => Ok(String::from_str(alloc, text)?),
            Err(fault) => Ok(String::from_str(alloc, key_fault(fault))?),
        },
        Some(("texts", key)) => match texts_at(tree, key) {
            Ok(texts) => joined(alloc, &texts),
            Err(fault) => Ok(String::from_str(alloc, key_fault(fault))?),
        },
        _ => no_question(alloc),
    }
}

/// What stands under a key of an object.
pub fn key(alloc: Global, object: &str, question: &str) -> Answer {
    match read_object(alloc, object.as_bytes()) {
        Ok(tree) => at_key(alloc, &tree, question),
        Err(ReadFault::NotJson) => no_question(alloc),
        Err(ReadFault::NoMemory) => Err(NoMemory),
    }
}
