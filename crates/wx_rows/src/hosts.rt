//! What a row expects of each native host, and what the starter's records tell of it, both as one text.

use crate::data::{Entry, Row};
use std::alloc::{AllocError, Global};
use wx_host_launch::{MemoryRecord, MemoryStarter};

/// What went on with a host: its program and arguments, what was read of it, what it was sent, and how many of its
/// starts, reads and writes failed.
#[derive(Clone, Copy)]
struct Account<'a> {
    program: &'a str,
    heard: &'a [u8],
    sent: &'a [u8],
    failed: (u64, u64, u64),
}

/// Adds the bytes, after their number.
fn put_bytes(alloc: Global, name: &str, bytes: &[u8], to: &mut Vec<u8>) -> Result<(), AllocError> {
    let head = format!(in alloc; " {name} {}:", bytes.len())?;
    to.extend_from_slice(head.as_bytes())?;
    to.extend_from_slice(bytes)
}

/// Adds the text of an account.
fn put_account(alloc: Global, account: &Account<'_>, to: &mut Vec<u8>) -> Result<(), AllocError> {
    let (starts, reads, writes) = account.failed;
    let head = format!(in alloc; "host {} failed {starts} {reads} {writes}", account.program)?;
    to.extend_from_slice(head.as_bytes())?;
    put_bytes(alloc, "heard", account.heard, to)?;
    put_bytes(alloc, "sent", account.sent, to)?;
    to.push(b'\n')?;
    Ok(())
}

/// Takes what an entry tells of a host: of a new one, or of the last.
fn take_of_host<'r>(
    entry: &'r Entry<'_>,
    accounts: &mut Vec<Account<'r>>,
) -> Result<(), AllocError> {
    if entry.key == "host" {
        accounts.push(Account {
            program: entry.rest,
            heard: &[],
            sent: &[],
            failed: (0, 0, 0),
        })?;
    } else if let Some(account) = accounts.last_mut() {
        if entry.key == "heard" {
            account.heard = &entry.bytes;
        } else if entry.key == "sent" {
            account.sent = &entry.bytes;
        } else if entry.key == "failed starts" {
            account.failed.0 = entry.number;
        } else if entry.key == "failed reads" {
            account.failed.1 = entry.number;
        } else if entry.key == "failed writes" {
            account.failed.2 = entry.number;
        }
    }
    Ok(())
}

/// The text of the accounts that the row expects.
pub fn expected_hosts(alloc: Global, row: &Row<'_>) -> Result<Vec<u8>, AllocError> {
    let mut accounts = Vec::new(alloc);
    for entry in row.entries.iter() {
        take_of_host(entry, &mut accounts)?;
    }
    let mut text = Vec::new(alloc);
    for account in accounts.iter() {
        put_account(alloc, account, &mut text)?;
    }
    Ok(text)
}

/// The program of a record and its arguments, parted by blanks.
fn program_of(alloc: Global, record: &MemoryRecord<'_>) -> Result<String, AllocError> {
    let Some(program) = &record.program else {
        return String::from_str(alloc, "none");
    };
    let mut text = String::from_str(alloc, program.path.as_str())?;
    for argument in program.arguments.iter() {
        text.push_str(" ")?;
        text.push_str(argument.as_str())?;
    }
    Ok(text)
}

/// The text of the accounts that the starter's records are.
pub fn given_hosts(alloc: Global, starter: &MemoryStarter<'_>) -> Result<Vec<u8>, AllocError> {
    let mut text = Vec::new(alloc);
    for record in starter.records() {
        let program = program_of(alloc, record)?;
        let account = Account {
            program: program.as_str(),
            heard: record.read,
            sent: &record.sent,
            failed: (
                record.failed_starts,
                record.failed_reads,
                record.failed_writes,
            ),
        };
        put_account(alloc, &account, &mut text)?;
    }
    Ok(text)
}
