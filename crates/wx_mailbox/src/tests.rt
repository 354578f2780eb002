//! The calls of a mailbox and what they answer.
use crate::Mailbox;
use std::test::Fail;
use wx_id::{ChannelNo, EntryNo, Event, EventKind, RequestNo};

/// A call, and after it what it answers or leaves.
#[derive(Clone, Copy)]
enum Row {
    /// So many places become spare.
    Reserve(u64),
    /// One more place is owed.
    Owe,
    /// A message of an entry on a channel comes into a free place.
    Put(u64, u64),
    /// The end of a channel comes into a place that was owed.
    PutOwed(u64, u64),
    /// A request is asked.
    Ask(u64, u64),
    /// An owed place is given up.
    Forgive,
    /// A channel's events are dropped.
    DropChannel(u64),
    /// The first event is taken: that of this entry, or none.
    Take(Option<u64>),
    /// So many places are spare at least, and so many are owed.
    Places(u64, u64),
}

fn is_of_entry(event: Option<Event>, entry: Option<u64>) -> bool {
    match (event, entry) {
        (Some(event), Some(entry)) => event.entry.0 == entry,
        (None, None) => true,
        _ => false,
    }
}

fn event(entry: u64, kind: EventKind) -> Event {
    Event {
        entry: EntryNo(entry),
        kind,
    }
}

/// Whether the call may be made and answers what the row says.
fn holds(mailbox: &mut Mailbox, row: Row) -> bool {
    match row {
        Row::Reserve(n) => mailbox.reserve(n).is_ok(),
        Row::Owe => mailbox.owe().is_ok(),
        Row::Put(n, k) => mailbox
            .put(event(n, EventKind::Message(ChannelNo(k))))
            .is_ok(),
        Row::Ask(n, r) => mailbox
            .put(event(n, EventKind::Asked(RequestNo(r))))
            .is_ok(),
        Row::PutOwed(n, k) => {
            let is_owed = mailbox.owed() > 0;
            if is_owed {
                mailbox.put_owed(event(n, EventKind::Disconnected(ChannelNo(k))));
            }
            is_owed
        }
        Row::Forgive => {
            let is_owed = mailbox.owed() > 0;
            if is_owed {
                mailbox.forgive();
            }
            is_owed
        }
        Row::DropChannel(k) => {
            mailbox.drop_channel(ChannelNo(k));
            true
        }
        Row::Take(entry) => {
            is_of_entry(mailbox.first(), entry) && is_of_entry(mailbox.take(), entry)
        }
        Row::Places(spare, owed) => mailbox.spare() >= spare && mailbox.owed() == owed,
    }
}

const CALLS: [Row; 27] = [
    Row::Places(0, 0),
    Row::Take(None),
    Row::Owe,
    Row::Reserve(2),
    Row::Places(2, 1),
    // Two fit into the spare places, and a third takes memory; the owed place stays.
    Row::Put(3, 0),
    Row::Places(1, 1),
    Row::Put(4, 1),
    Row::Put(5, 0),
    Row::Places(0, 1),
    // Request 0 is no channel 0.
    Row::Ask(6, 0),
    Row::Take(Some(3)),
    Row::PutOwed(7, 0),
    Row::Places(0, 0),
    Row::PutOwed(7, 0),
    Row::DropChannel(0),
    Row::Take(Some(4)),
    Row::Take(Some(6)),
    Row::Take(None),
    Row::Owe,
    Row::Owe,
    Row::Forgive,
    Row::Places(0, 1),
    Row::Forgive,
    Row::Places(0, 0),
    Row::Reserve(0),
    Row::Take(None),
];

#[test]
fn calls_and_their_answers(rt: HostRuntime) -> Result<(), Fail> {
    let mut mailbox = Mailbox::new(rt.alloc());
    for (i, row) in CALLS.iter().enumerate() {
        // The second end has no owed place left.
        assert!(rt; holds(&mut mailbox, *row) == (i != 14), "row {i}");
    }
    Ok(())
}
