//! The requests, each kept as a channel from its asker to its receivers, which its outcome closes.
ghost use Rattle.std.specs.Prelude.{◌≡◌, ◌≤◌, ◌<◌, ℕ, [], ◌∷◌, ◌++◌, length, map, false, IsTrue};
ghost use Rattle.std.specs.Prelude.{IfSome, IfOk, IfErr, OnOk, OnErr, Some, slice_get, slice_set};
ghost use Rattle.std.specs.Option.{IfNone};
ghost use Rattle.wx_id.specs.Contexts.{is_among, are_distinct};
ghost use Rattle.wx_one_shot.specs.Requests.{asked, settled, without, left_by, is_settled_at, is_unsettled_at};
ghost use Rattle.wx_one_shot.specs.Requests.{standing_at, still_open_at, concerns_at};
ghost use Rattle.wx_one_shot.specs.Kept.{requests_of};
ghost use Rattle.wx_one_shot.specs.declared.requests.Standing.TheVariants.{Open};

use std::alloc::Global;
use std::marker::Model;
use wx_id::{ChannelNo, ContextNo, End, RequestNo, is_among};
use wx_port::Ports;

/// What a context is to a request.
#[derive(Clone, Copy, Debug, PartialEq, Eq)]
pub enum Standing {
    /// The request was sent to it, and its reply would be the first.
    Open,
    /// The request was sent to it, and is settled, or it declined or was dropped.
    Late,
    /// The request was not sent to it, or was never made.
    Stranger,
}

/// What c is to request r, which is kept as this channel.
#[tactic(auto, using(crate::proofs::KeptLater::standing_is))]
fn standing_in(ports: &Ports, r: ChannelNo, c: ContextNo) -> Standing
    ensures { result ≡ standing_at (slice_get (requests_of ports.now) r.0) c }
{
    let live = ports.live(r);
    match ports.end(r, c) {
        End::Receiver => {
            if is_among(live, c) {
                Standing::Open
            } else {
                Standing::Late
            }
        }
        _ => Standing::Stranger,
    }
}

/// Settles request r, which is kept as this channel.
fn settle_in(ports: &mut Ports, r: ChannelNo)
    requires { IsTrue (is_unsettled_at (slice_get (requests_of ports.old) r.0)) }
    ensures { IfSome (slice_get (requests_of ports.old) r.0) (λ request. requests_of ports.new
        ≡ slice_set (requests_of ports.old) r.0 (settled request)) }
{
    ports.close(r);
}

/// Receiver c, which is open, will not reply to request r, which is kept as this channel. Answers whether that settled
/// it.
fn close_in(ports: &mut Ports, r: ChannelNo, c: ContextNo) -> bool
    requires { standing_at (slice_get (requests_of ports.old) r.0) c ≡ Open }
    ensures requests { IfSome (slice_get (requests_of ports.old) r.0) (λ request. requests_of ports.new
        ≡ slice_set (requests_of ports.old) r.0 (without c request)) }
    ensures settled { result ≡ is_settled_at (slice_get (requests_of ports.new) r.0) }
{
    // The asker is none of the receivers, so c drops a receiver's end.
    let _ = ports.live(r);
    ports.drop_end(r, c)
}

/// The one-shot requests, seen as a list by number: each with its asker, its receivers, those that may still reply, and
/// whether it is settled.
#[derive(Drop)]
pub struct Requests {
    ports: Ports,
}

impl Model for Requests {
    ghost use Rattle.std.specs.Prelude.{List};
    ghost use Rattle.wx_one_shot.specs.Requests.{Request};
    ghost use Rattle.wx_one_shot.specs.Kept.{requests_of};

    ghost Value = { List Request };

    ghost view = { λ a. requests_of a.ports };
}

impl Requests {
    /// No requests.
    pub fn new(alloc: Global) -> Requests
        ensures { result ≡ [] }
    {
        Requests {
            ports: Ports::new(alloc),
        }
    }

    /// Makes a request to distinct receivers other than the asker, or to none, as one to a native host. It gets the
    /// next number. Refused for want of memory alone: then nothing is changed, and the receivers come back.
    #[tactic(auto, using(crate::proofs::KeptLater::asked_is, crate::proofs::KeptLater::count_is))]
    pub fn ask(
        &mut self,
        asker: ContextNo,
        receivers: Vec<ContextNo>,
    ) -> Result<RequestNo, Vec<ContextNo>>
        requires distinct { IsTrue (are_distinct receivers.items) }
        requires others { is_among receivers.items asker ≡ false }
        ensures number { IfOk result (λ r. r.0 ≡ length self.old) }
        ensures ok { OnOk result (self.new ≡ self.old ++ asked asker receivers.items ∷ []) }
        ensures err { OnErr result (self.new ≡ self.old) }
        ensures returned { IfErr result (λ back. back ≡ receivers) }
    {
        match self.ports.open(asker, receivers) {
            Ok(k) => Ok(RequestNo(k.0)),
            Err(back) => Err(back),
        }
    }

    /// Who made request r.
    #[tactic(auto, using(crate::proofs::KeptLater::asker_is, crate::proofs::KeptLater::count_is))]
    pub fn asker(&self, r: RequestNo) -> ContextNo
        requires { r.0 < length self.now }
        ensures { IfSome (slice_get self.now r.0) (λ request. result ≡ request.asker) }
    {
        self.ports.opener(ChannelNo(r.0))
    }

    /// Whether request r is settled.
    #[tactic(auto, using(crate::proofs::KeptLater::settled_is, crate::proofs::KeptLater::within_there, crate::proofs::KeptLater::count_is))]
    pub fn is_settled(&self, r: RequestNo) -> bool
        requires { r.0 < length self.now }
        ensures { result ≡ is_settled_at (slice_get self.now r.0) }
    {
        !self.ports.is_open(ChannelNo(r.0))
    }

    /// What context c is to request r; a stranger where r has not been given out.
    pub fn standing(&self, r: RequestNo, c: ContextNo) -> Standing
        ensures { result ≡ standing_at (slice_get self.now r.0) c }
    {
        standing_in(&self.ports, ChannelNo(r.0), c)
    }

    /// The receivers that may still reply to request r: none where it is settled or has not been given out.
    #[tactic(auto, using(crate::proofs::KeptLater::still_open_is))]
    pub fn still_open(&self, r: RequestNo) -> &[ContextNo]
        ensures { result.now ≡ still_open_at (slice_get self.now r.0) }
    {
        self.ports.live(ChannelNo(r.0))
    }

    /// Settles request r, which is not settled. Takes no memory.
    pub fn settle(&mut self, r: RequestNo)
        requires { IsTrue (is_unsettled_at (slice_get self.old r.0)) }
        ensures { IfSome (slice_get self.old r.0) (λ request. self.new ≡ slice_set self.old r.0 (settled request)) }
    {
        settle_in(&mut self.ports, ChannelNo(r.0));
    }

    // Receiver c, which is open, will not reply to request r. Answers whether that settled it.
    fn close_at(&mut self, r: RequestNo, c: ContextNo) -> bool
        requires { standing_at (slice_get self.old r.0) c ≡ Open }
        ensures requests { IfSome (slice_get self.old r.0)
            (λ request. self.new ≡ slice_set self.old r.0 (without c request)) }
        ensures settled { result ≡ is_settled_at (slice_get self.new r.0) }
    {
        close_in(&mut self.ports, ChannelNo(r.0), c)
    }

    /// Context c, whose standing is open, declines request r. Answers whether that settled it: then no receiver is
    /// open. Takes no memory.
    pub fn decline(&mut self, r: RequestNo, c: ContextNo) -> bool
        requires { standing_at (slice_get self.old r.0) c ≡ Open }
        ensures requests { IfSome (slice_get self.old r.0)
            (λ request. self.new ≡ slice_set self.old r.0 (without c request)) }
        ensures settled { result ≡ is_settled_at (slice_get self.new r.0) }
    {
        self.close_at(r, c)
    }

    /// Context c, whose standing is open, leaves and will not reply to request r. Answers whether that settled it:
    /// then no receiver is open. Takes no memory.
    pub fn drop_receiver(&mut self, r: RequestNo, c: ContextNo) -> bool
        requires { standing_at (slice_get self.old r.0) c ≡ Open }
        ensures requests { IfSome (slice_get self.old r.0)
            (λ request. self.new ≡ slice_set self.old r.0 (without c request)) }
        ensures settled { result ≡ is_settled_at (slice_get self.new r.0) }
    {
        self.close_at(r, c)
    }

    /// Context c leaves: each unsettled request that it asked is settled, and those that were sent to it are left to
    /// their other receivers. Takes no memory.
    pub fn leave(&mut self, c: ContextNo)
        ensures { self.new ≡ map (left_by c) self.old }
    {
        self.ports.leave(c);
    }

    /// How many requests were made.
    #[tactic(auto, using(crate::proofs::KeptLater::count_is))]
    pub fn count(&self) -> u64
        ensures { result ≡ length self.now }
    {
        self.ports.count()
    }

    /// The least request from `from` on that is not settled and that context c asked or may still reply to; none where
    /// there is none. A search by halves among the
    /// requests of c, and then as many steps as it finds settled.
    #[tactic(auto, using(crate::proofs::KeptLater::concerns_is))]
    pub fn next_of(&self, c: ContextNo, from: RequestNo) -> Option<RequestNo>
        ensures found { IfSome result (λ r. (from.0 ≤ r.0) × IsTrue (concerns_at (slice_get self.now r.0) c)) }
        ensures least { IfSome result (λ r. (k : ℕ) → k < r.0 → from.0 ≤ k
            → concerns_at (slice_get self.now k) c ≡ false) }
        ensures none { IfNone result ((k : ℕ) → from.0 ≤ k → concerns_at (slice_get self.now k) c ≡ false) }
    {
        match self.ports.next_of(c, ChannelNo(from.0)) {
            Some(k) => Some(RequestNo(k.0)),
            None => None,
        }
    }
}
