//! Ids of extensions, and names of hosts.

use crate::answers::Answer;
use std::alloc::Global;
use wx_id::{ExtensionId, HostName, HostNameFault, NoMemory};

/// Where the bytes go wrong as an extension's id, or that they are one.
pub fn extension_id(alloc: Global, bytes: &[u8]) -> Answer {
    let answer = match ExtensionId::read(bytes) {
        Ok(id) if id.text().as_bytes() == bytes => String::from_str(alloc, "read")?,
        Ok(id) => format!(in alloc; "read as {}", id.text())?,
        Err(fault) => format!(in alloc; "bad_id {}", fault.place)?,
    };
    Ok(answer)
}

/// What reading the bytes as a host name answers: `read`, or where they go wrong.
fn host_name_read(alloc: Global, bytes: &[u8]) -> Answer {
    let answer = match HostName::read(alloc, bytes) {
        Ok(name) if name.text().as_bytes() == bytes => String::from_str(alloc, "read")?,
        Ok(name) => format!(in alloc; "read as {}", name.text())?,
        Err(HostNameFault::BadHostName { place }) => format!(in alloc; "bad_name {place}")?,
        Err(HostNameFault::NoMemory) => return Err(NoMemory),
    };
    Ok(answer)
}

/// Where the bytes go wrong as a host name, or that they are one, by the test and by the read.
pub fn host_name(alloc: Global, bytes: &[u8]) -> Answer {
    let tested = match HostName::fault(bytes) {
        None => String::from_str(alloc, "read")?,
        Some(place) => format!(in alloc; "bad_name {place}")?,
    };
    let read = host_name_read(alloc, bytes)?;
    if read.as_str() == tested.as_str() {
        Ok(read)
    } else {
        Ok(format!(in alloc; "{tested}, and read otherwise: {read}")?)
    }
}

/// An id as a row writes it: its 32 letters, or one of them, which stands for 32.
pub fn id_of(alloc: Global, word: &str) -> Result<Option<ExtensionId>, NoMemory> {
    let mut letters = String::from_str(alloc, word)?;
    if word.len() == 1 {
        for _ in 1..32 {
            letters.push_str(word)?;
        }
    }
    Ok(ExtensionId::read(letters.as_bytes()).ok())
}
