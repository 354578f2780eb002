//! Match patterns, and the URLs that they meet.

use crate::answers::Answer;
use crate::words::{no_question, pattern_fault, yes_or_no};
use std::alloc::Global;
use url::Url;
use wx_id::NoMemory;
use wx_match_pattern::{Pattern, PatternReadFault};

/// What a text is as a pattern: `read`, `too_broad`, or its first fault.
pub fn pattern(alloc: Global, text: &str) -> Answer {
    match Pattern::read(alloc, text) {
        Ok(pattern) if pattern.too_broad() => Ok(String::from_str(alloc, "too_broad")?),
        Ok(_) => Ok(String::from_str(alloc, "read")?),
        Err(PatternReadFault::Bad(fault)) => pattern_fault(alloc, fault),
        Err(PatternReadFault::NoMemory) => Err(NoMemory),
    }
}

/// Whether a pattern and a URL match.
pub fn matched(alloc: Global, pattern: &str, address: &str) -> Answer {
    match (Pattern::read(alloc, pattern), Url::parse(alloc, address)) {
        (Ok(pattern), Ok(url)) => yes_or_no(alloc, pattern.matches(&url)),
        _ => no_question(alloc),
    }
}
