//! Types of every layer may be sent to another thread, and shared with one.
fn crosses_threads<T: Send + Sync>() {}

#[test]
fn types_cross_threads(_rt: HostRuntime) {
    crosses_threads::<wx_machine::Who>();
    crosses_threads::<wx_machine::Call>();
    crosses_threads::<wx_machine::Answer>();
    crosses_threads::<wx_machine::Entry>();
    crosses_threads::<wx_machine::Sort>();
    crosses_threads::<wx_machine::Reason>();
    crosses_threads::<wx_machine::Work>();
    crosses_threads::<wx_port::Ports>();
    crosses_threads::<wx_one_shot::Requests>();
    crosses_threads::<wx_one_shot::Standing>();
    crosses_threads::<wx_journal::Journal>();
    crosses_threads::<wx_broker::Broker>();
    crosses_threads::<wx_broker::HostView>();
}
