use crate::keeping::Keeping;
use ip_join::Joins;
use message_links::{Conversations, Links};
use tcp_messages::MessageStreams;
use tcp_streams::StreamPlaces;

/// What is kept of earlier frames' packets.
pub(crate) struct State {
    /// The fragments of datagrams that aren't whole yet.
    pub joins: Joins,
    /// What is kept of conversations.
    pub keeps: Keeping,
    pub udp: Conversations,
    /// The streams of TCP by their numbers, where places alone are asked.
    pub places: StreamPlaces,
    /// The streams of TCP, and their messages: of the segments that are taken. Bytes of theirs may be let go.
    pub streams: MessageStreams,
    /// What links ask of the messages that frames showed, where everything is kept.
    pub links: Links,
    /// The links of the newest frame's messages.
    pub found: Vec<Option<u32>>,
}

impl Drop for State {
    fn drop(self) {
        let State {
            joins: _joins,
            keeps: _,
            udp: _udp,
            places: _places,
            streams: _streams,
            links: _links,
            found: _found,
        } = self;
    }
}

/// Lets a value go: its destructor is written out here alone, and not at each exit of what owned it.
pub(crate) fn let_go<T: Drop>(_value: T) {}
