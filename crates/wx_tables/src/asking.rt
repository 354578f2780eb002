//! The outcome of a request: its asker is told in the place that it kept, or gives it up where it leaves.
ghost use Rattle.std.specs.Prelude.{◌≡◌, ◌<◌, ◌∷◌, [], length, map, IsTrue, IfSome, true, slice_get, slice_set};
ghost use Rattle.wx_one_shot.specs.declared.requests.Standing.TheVariants.{Open};
ghost use Rattle.wx_one_shot.specs.Requests.{concerns_at, is_unsettled_at, settled, standing_at, without};
ghost use Rattle.wx_id.specs.ByContext.{EachHas};
ghost use Rattle.wx_tables.specs.State.{AreOwed, queues_in};
ghost use Rattle.wx_tables.specs.Ending.{EachQueue};
ghost use Rattle.wx_tables.specs.Asking.{closes_request, request_left, request_left_at, told_asker, told_outcomes};

use wx_id::{ContextNo, EntryNo, Event, EventKind, RequestNo};
use wx_mailbox::{Mailbox, mailboxes};
use wx_one_shot::{Requests, Standing};
use wx_port::Ports;

/// An unsettled request is settled, and its asker is told.
pub fn settle(
    ports: &Ports,
    requests: &mut Requests,
    boxes: &mut Vec<Mailbox>,
    r: RequestNo,
    e: Event,
)
    requires owed { AreOwed ports.now requests.old boxes.old.items }
    requires unsettled { IsTrue (is_unsettled_at (slice_get requests.old r.0)) }
    ensures owed { AreOwed ports.now requests.new boxes.new.items }
    ensures requests { IfSome (slice_get requests.old r.0)
        (λ request. requests.new ≡ slice_set requests.old r.0 (settled request)) }
    ensures queues { IfSome (slice_get requests.old r.0)
        (λ request. EachQueue (told_asker true request e) (queues_in boxes.old.items) (queues_in boxes.new.items)) }
{
    let _ = ports;
    let asker = requests.asker(r);
    mailboxes::pay(boxes, &[asker], e);
    requests.settle(r);
}

/// Context c, the asker of an unsettled request, leaves it.
fn leave_own(
    ports: &Ports,
    requests: &mut Requests,
    boxes: &mut Vec<Mailbox>,
    r: RequestNo,
    c: ContextNo,
)
    requires owed { AreOwed ports.now requests.old boxes.old.items }
    requires unsettled { IsTrue (is_unsettled_at (slice_get requests.old r.0)) }
    requires asker { IfSome (slice_get requests.old r.0) (λ request. c ≡ request.asker) }
    ensures owed { AreOwed ports.now requests.new boxes.new.items }
    ensures requests { IfSome (slice_get requests.old r.0)
        (λ request. requests.new ≡ slice_set requests.old r.0 (settled request)) }
    ensures queues { queues_in boxes.new.items ≡ queues_in boxes.old.items }
{
    let _ = ports;
    mailboxes::forgive(boxes, &[c]);
    requests.settle(r);
}

/// An open receiver will not reply; where none may any more the asker is told.
pub fn drop_receiver(
    ports: &Ports,
    requests: &mut Requests,
    boxes: &mut Vec<Mailbox>,
    r: RequestNo,
    c: ContextNo,
    e: Event,
)
    requires owed { AreOwed ports.now requests.old boxes.old.items }
    requires standing { standing_at (slice_get requests.old r.0) c ≡ Open }
    ensures owed { AreOwed ports.now requests.new boxes.new.items }
    ensures requests { IfSome (slice_get requests.old r.0)
        (λ request. requests.new ≡ slice_set requests.old r.0 (without c request)) }
    ensures queues { IfSome (slice_get requests.old r.0)
        (λ request. EachQueue (told_asker (without c request).is_settled request e)
        (queues_in boxes.old.items) (queues_in boxes.new.items)) }
{
    let _ = ports;
    let asker = requests.asker(r);
    if requests.drop_receiver(r, c) {
        mailboxes::pay(boxes, &[asker], e);
    }
}

/// Context c, whom the request concerns, leaves it.
fn leave_request(
    ports: &Ports,
    requests: &mut Requests,
    boxes: &mut Vec<Mailbox>,
    r: RequestNo,
    c: ContextNo,
    e: Event,
)
    requires owed { AreOwed ports.now requests.old boxes.old.items }
    requires concerns { IsTrue (concerns_at (slice_get requests.old r.0) c) }
    ensures owed { AreOwed ports.now requests.new boxes.new.items }
    ensures requests { IfSome (slice_get requests.old r.0)
        (λ request. requests.new ≡ slice_set requests.old r.0 (request_left c request)) }
    ensures queues { IfSome (slice_get requests.old r.0)
        (λ request. EachQueue (told_asker (closes_request request c) request e)
        (queues_in boxes.old.items) (queues_in boxes.new.items)) }
{
    let asker = requests.asker(r);
    if asker.0 == c.0 {
        leave_own(ports, requests, boxes, r, c);
        return;
    }
    match requests.standing(r, c) {
        Standing::Open => drop_receiver(ports, requests, boxes, r, c, e),
        _ => {}
    }
}

/// Context c leaves each unsettled request that it asked or may still reply to, in entry n.
pub fn leave_requests(
    ports: &Ports,
    requests: &mut Requests,
    boxes: &mut Vec<Mailbox>,
    c: ContextNo,
    n: EntryNo,
)
    requires owed { AreOwed ports.now requests.old boxes.old.items }
    ensures owed { AreOwed ports.now requests.new boxes.new.items }
    ensures requests { requests.new ≡ map (request_left_at c) requests.old }
    ensures queues { EachQueue (told_outcomes requests.old c n (length requests.old))
        (queues_in boxes.old.items) (queues_in boxes.new.items) }
{
    let count = requests.count();
    let mut from: u64 = 0;
    while let Some(r) = requests.next_of(c, RequestNo(from)) {
        let e = Event {
            entry: n,
            kind: EventKind::Closed(r),
        };
        leave_request(ports, requests, boxes, r, c, e);
        from = r.0 + 1;
    }
}
