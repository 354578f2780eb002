//! A manifest's bytes as a tree, and what stands under its keys.
#![tactic(auto)]

ghost use Rattle.std.specs.Prelude.{◌≡◌, Some, None, IfOk, ◌<◌, length, slice_get, is_some};
ghost use Rattle.serde_json.specs.Find.{get, as_str};
ghost use Rattle.serde_json.specs.View.{view, items_view};
ghost use Rattle.wx_manifest_tree.specs.Tree.{object_of, required, optional, texts_of, as_texts, lent};

use serde_json::Value;
use std::alloc::Global;
use std::marker::Model;

/// Why bytes give no tree.
#[derive(Clone, Copy, Debug, PartialEq, Eq)]
pub enum ReadFault {
    /// They are no JSON text (RFC 8259), or its value is no object.
    NotJson,
    /// Memory was refused.
    NoMemory,
}

/// Why a key does not give what it has to.
#[derive(Clone, Copy, Debug, PartialEq, Eq)]
pub enum KeyFault {
    /// It is not there.
    Missing,
    /// Its value is of another kind.
    WrongKind,
}

/// Reads the object that these bytes are.
pub fn read_object(alloc: Global, bytes: &[u8]) -> Result<Value, ReadFault>
    ensures ok { IfOk result (λ value. object_of bytes.now ≡ Some (view value)) }
    ensures not_json { result ≡ Err ReadFault.NotJson → object_of bytes.now ≡ None }
{
    match Value::from_slice(alloc, bytes) {
        Ok(value) => {
            if value.is_object() {
                Ok(value)
            } else {
                Err(ReadFault::NotJson)
            }
        }
        Err(fault) => {
            if fault.is_memory() {
                Err(ReadFault::NoMemory)
            } else {
                Err(ReadFault::NotJson)
            }
        }
    }
}

/// The text under a key that has to be there.
pub fn text_at<'v>(tree: &'v Value, key: &str) -> Result<&'v str, KeyFault>
    ensures { lent result ≡ required as_str (get key.now (view tree.now)) }
{
    match tree.get(key) {
        None => Err(KeyFault::Missing),
        Some(value) => match value.as_str() {
            None => Err(KeyFault::WrongKind),
            Some(text) => Ok(text),
        },
    }
}

/// The texts under a key that has to be there, with an array of strings.
pub fn texts_at<'v>(tree: &'v Value, key: &str) -> Result<Texts<'v>, KeyFault>
    ensures { result ≡ required as_texts (get key.now (view tree.now)) }
{
    match tree.get(key) {
        None => Err(KeyFault::Missing),
        Some(value) => match Texts::of(value) {
            None => Err(KeyFault::WrongKind),
            Some(texts) => Ok(texts),
        },
    }
}

/// The texts under a key that may be absent, and else has an array of strings.
pub fn optional_texts_at<'v>(tree: &'v Value, key: &str) -> Result<Option<Texts<'v>>, KeyFault>
    ensures { result ≡ optional as_texts (get key.now (view tree.now)) }
{
    let Some(value) = tree.get(key) else {
        return Ok(None);
    };
    match Texts::of(value) {
        None => Err(KeyFault::WrongKind),
        Some(texts) => Ok(Some(texts)),
    }
}

/// The members of an array of strings. Contracts see the list of their texts.
#[derive(Drop)]
pub struct Texts<'v> {
    members: &'v [Value],
}

impl<'v> Model for Texts<'v> {
    ghost use Rattle.std.specs.Prelude.{List, ℕ, [], IsSome, unwrap_or};
    ghost use Rattle.serde_json.specs.View.{items_view};
    ghost use Rattle.wx_manifest_tree.specs.Tree.{texts_of};

    ghost Value = { List (List ℕ) };

    ghost view = { λ texts. unwrap_or (texts_of (items_view texts.members.now)) [] };

    ghost invariant = { λ texts. IsSome (texts_of (items_view texts.members.now)) };
}

impl<'v> Texts<'v> {
    /// The texts of an array of strings; none for any other value.
    pub fn of(value: &'v Value) -> Option<Texts<'v>>
        ensures { result ≡ as_texts (view value.now) }
    {
        match value.as_array() {
            None => None,
            Some(members) => {
                if all_strings(members) {
                    Some(Texts { members })
                } else {
                    None
                }
            }
        }
    }

    /// How many there are.
    pub fn len(&self) -> usize
        ensures { result ≡ length self.now }
    {
        self.members.len()
    }

    /// The text at a place, from 0.
    pub fn at(&self, place: usize) -> &'v str
        requires { place < length self.now }
        ensures { slice_get self.now place ≡ Some result.now }
    {
        let members = self.members;
        match members[place].as_str() {
            Some(text) => text,
            None => unreachable!(),
        }
    }
}

fn all_strings(members: &[Value]) -> bool
    ensures { result ≡ is_some (texts_of (items_view members.now)) }
{
    for member in members {
        if !member.is_string() {
            return false;
        }
    }
    true
}
