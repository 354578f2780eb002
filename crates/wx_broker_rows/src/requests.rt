//! One-shot requests: calls of the list of requests and what they answer.
use std::alloc::Global;
use std::process::Abort;
use wx_id::{ContextNo, RequestNo};
use wx_one_shot::{Requests, Standing};

// A call and what it answers. Where no word stands at a call, it has the request, the context and the answer.
#[derive(Clone, Copy)]
enum Step {
    // The asker, the one receiver, if any, and the other, and the number that the request gets.
    Ask(u64, Option<u64>, Option<u64>, u64),
    Is(u64, u64, Standing),
    Decline(u64, u64, bool),
    Drop(u64, u64, bool),
    // The request, and who asked it.
    Settle(u64, u64),
    // The context.
    Leave(u64),
    // How many there are.
    Count(u64),
    // The context, the number from which on, and the number found.
    Next(u64, u64, Option<u64>),
}

fn ask(
    requests: &mut Requests,
    alloc: Global,
    asker: u64,
    one: Option<u64>,
    other: Option<u64>,
) -> Option<RequestNo> {
    let asker = ContextNo(asker);
    match (one, other) {
        (None, _) => requests.ask(asker, Vec::new(alloc)).ok(),
        (Some(a), None) => {
            if a == asker.0 {
                return None;
            }
            let to = Vec::from_slice(alloc, &[ContextNo(a)]).ok()?;
            requests.ask(asker, to).ok()
        }
        (Some(a), Some(b)) => {
            if a == asker.0 || b == asker.0 || a == b {
                return None;
            }
            let to = Vec::from_slice(alloc, &[ContextNo(a), ContextNo(b)]).ok()?;
            requests.ask(asker, to).ok()
        }
    }
}

fn asks(
    requests: &mut Requests,
    alloc: Global,
    asker: u64,
    one: Option<u64>,
    other: Option<u64>,
    number: u64,
) -> bool {
    match ask(requests, alloc, asker, one, other) {
        Some(r) => r.0 == number && requests.next_of(ContextNo(asker), r) == Some(r),
        None => false,
    }
}

fn declines(requests: &mut Requests, r: u64, c: u64, settled: bool) -> bool {
    match requests.standing(RequestNo(r), ContextNo(c)) {
        Standing::Open => requests.decline(RequestNo(r), ContextNo(c)) == settled,
        _ => false,
    }
}

fn drops(requests: &mut Requests, r: u64, c: u64, settled: bool) -> bool {
    match requests.standing(RequestNo(r), ContextNo(c)) {
        Standing::Open => requests.drop_receiver(RequestNo(r), ContextNo(c)) == settled,
        _ => false,
    }
}

fn settles(requests: &mut Requests, r: u64, c: u64) -> bool {
    match requests.next_of(ContextNo(c), RequestNo(r)) {
        Some(n) => {
            let was = requests.is_settled(n);
            let by = requests.asker(n);
            requests.settle(n);
            n.0 == r && by.0 == c && !was && requests.is_settled(n)
        }
        None => false,
    }
}

// Whether the call answers as the table says.
fn goes(requests: &mut Requests, alloc: Global, step: Step) -> bool {
    match step {
        Step::Ask(asker, one, other, number) => asks(requests, alloc, asker, one, other, number),
        Step::Is(r, c, standing) => requests.standing(RequestNo(r), ContextNo(c)) == standing,
        Step::Decline(r, c, settled) => declines(requests, r, c, settled),
        Step::Drop(r, c, settled) => drops(requests, r, c, settled),
        Step::Settle(r, c) => settles(requests, r, c),
        Step::Leave(c) => {
            requests.leave(ContextNo(c));
            requests.next_of(ContextNo(c), RequestNo(0)).is_none()
        }
        Step::Count(count) => requests.count() == count,
        Step::Next(c, from, number) => {
            requests.next_of(ContextNo(c), RequestNo(from)) == number.map(|n| RequestNo(n))
        }
    }
}

/// Declines, drops, replies and what is found, in order.
const IN_ORDER: &[Step] = &[
    Step::Is(0, 0, Standing::Stranger),
    Step::Next(0, 0, None),
    // Three requests to two receivers each, and one to a native host.
    Step::Ask(0, Some(1), Some(2), 0),
    Step::Ask(1, Some(0), Some(2), 1),
    Step::Ask(0, None, None, 2),
    Step::Ask(3, Some(1), Some(2), 3),
    Step::Is(0, 1, Standing::Open),
    Step::Is(0, 2, Standing::Open),
    Step::Is(0, 0, Standing::Stranger),
    Step::Is(0, 3, Standing::Stranger),
    Step::Is(2, 0, Standing::Stranger),
    Step::Is(2, 1, Standing::Stranger),
    Step::Is(4, 1, Standing::Stranger),
    Step::Next(0, 0, Some(0)),
    Step::Next(0, 1, Some(1)),
    Step::Next(0, 2, Some(2)),
    Step::Next(0, 3, None),
    Step::Next(1, 2, Some(3)),
    Step::Next(1, 4, None),
    Step::Next(1, 18446744073709551615, None),
    Step::Next(3, 0, Some(3)),
    Step::Next(5, 0, None),
    // One receiver declines, the other leaves.
    Step::Decline(0, 1, false),
    Step::Is(0, 1, Standing::Late),
    Step::Is(0, 2, Standing::Open),
    Step::Next(1, 0, Some(1)),
    Step::Next(2, 0, Some(0)),
    Step::Next(0, 0, Some(0)),
    Step::Drop(0, 2, true),
    Step::Is(0, 1, Standing::Late),
    Step::Is(0, 2, Standing::Late),
    Step::Is(0, 0, Standing::Stranger),
    Step::Is(0, 3, Standing::Stranger),
    Step::Next(0, 0, Some(1)),
    Step::Next(2, 0, Some(1)),
    // A reply settles.
    Step::Settle(1, 1),
    Step::Is(1, 0, Standing::Late),
    Step::Is(1, 2, Standing::Late),
    Step::Is(1, 1, Standing::Stranger),
    Step::Is(1, 3, Standing::Stranger),
    Step::Next(0, 0, Some(2)),
    Step::Next(1, 0, Some(3)),
    Step::Next(2, 0, Some(3)),
    // The host answers.
    Step::Settle(2, 0),
    Step::Is(2, 0, Standing::Stranger),
    Step::Next(0, 0, None),
    // One receiver leaves, the other declines.
    Step::Drop(3, 1, false),
    Step::Is(3, 1, Standing::Late),
    Step::Decline(3, 2, true),
    Step::Is(3, 2, Standing::Late),
    Step::Next(3, 0, None),
    Step::Ask(2, Some(3), None, 4),
    Step::Decline(4, 3, true),
    Step::Next(2, 0, None),
];

/// Makes these calls, one after another.
fn play(rt: &impl Abort, alloc: Global, steps: &[Step]) {
    let mut requests = Requests::new(alloc);
    for (i, step) in steps.iter().enumerate() {
        assert!(rt; goes(&mut requests, alloc, *step), "row {i}");
    }
}

#[test]
fn calls_in_order(rt: HostRuntime) {
    play(&rt, rt.alloc(), IN_ORDER);
}

/// Who leaves, and what is left of the requests.
const LEAVES: &[Step] = &[
    Step::Ask(0, Some(1), Some(2), 0),
    Step::Ask(1, Some(0), Some(2), 1),
    Step::Ask(2, Some(1), None, 2),
    Step::Ask(2, Some(3), None, 3),
    Step::Count(4),
    // It asked the one, was sent another with one more, and a third alone.
    Step::Leave(1),
    Step::Is(1, 0, Standing::Late),
    Step::Is(0, 1, Standing::Late),
    Step::Is(0, 2, Standing::Open),
    Step::Next(0, 0, Some(0)),
    Step::Next(2, 1, Some(3)),
    Step::Is(3, 3, Standing::Open),
    // The last receiver of one leaves, who asked the last.
    Step::Leave(2),
    Step::Next(0, 0, None),
    Step::Is(3, 3, Standing::Late),
    Step::Count(4),
];

#[test]
fn leaves(rt: HostRuntime) {
    play(&rt, rt.alloc(), LEAVES);
}
