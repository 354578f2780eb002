//! The desk over a broker that nobody else has.
ghost use Rattle.std.specs.Prelude.{◌≡◌, true};
ghost use Rattle.wx_desk.specs.BrokerDesks.{has_lent};

use wx_broker::Broker;
use wx_id::{ContextNo, EntryNo, HostNo};

/// The desk over a broker that nobody else has. It makes the calls of context `context` and those of host `host`, and
/// the own entries of each are those that it made.
#[derive(Drop)]
pub struct BrokerDesk {
    pub broker: Broker,
    /// Whose calls it makes as the desk of an endpoint.
    pub context: ContextNo,
    /// Whose calls it makes as the desk of a host.
    pub host: HostNo,
    /// The entry whose text it lends: the one that a host's last take named.
    pub lent: Option<EntryNo>,
    /// What it last answered to whether a host's pump is to stop.
    pub told: Option<bool>,
    ghost kept: { has_lent broker lent ≡ true },
}

impl BrokerDesk {
    /// The desk over this broker. It is that of context 0 and of host 0, until it is set for others.
    pub fn new(broker: Broker) -> BrokerDesk
        ensures { result.broker ≡ broker }
    {
        BrokerDesk {
            broker,
            context: ContextNo(0),
            host: HostNo(0),
            lent: None,
            told: None,
        }
    }

    /// The broker; the desk ends.
    pub fn into_broker(self) -> Broker
        ensures { result ≡ self.broker }
    {
        let BrokerDesk {
            broker,
            context: _,
            host: _,
            lent: _,
            told: _,
        } = self;
        broker
    }
}
