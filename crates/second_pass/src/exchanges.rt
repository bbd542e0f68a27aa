// Which requests of HTTP were answered, and by which frames.
ghost use Rattle.std.specs.Prelude.{◌≡◌, ℕ, List, [], ◌∷◌, Option, OnOk};
ghost use Rattle.second_pass.specs.declared.messages.Kind.TheVariants as kinds;
ghost use Rattle.second_pass.specs.declared.messages.Message.{Message as MessageValue};
ghost use Rattle.second_pass.specs.Messages.{direction_in, frame_on, is_other as is_other_direction, layers_on, message_of, same_direction, with_message};
ghost use Rattle.second_pass.specs.Replies.{answered, by_other, reply_to, request_of};
ghost use Rattle.second_pass.specs.Stands.{HasMessages, counted, request_in};

use crate::answers::Answers;
use crate::counts::Counts;
use crate::messages::{Direction, Kind, Message, direction_in, message_of};
use crate::requests::{Asked, Requests};
use pk_base::NoMemory;
use pk_tree::Layer;
use std::alloc::Global;

pub(crate) struct Exchanges {
    pub requests_sent: Counts,
    pub responses_sent: Counts,
    pub requests: Requests,
    pub replies: Answers,
}

impl Drop for Exchanges {
    fn drop(self) {
        let Exchanges {
            requests_sent: _requests_sent,
            responses_sent: _responses_sent,
            requests: _requests,
            replies: _replies,
        } = self;
    }
}

impl Exchanges {
    pub fn new(alloc: Global) -> Exchanges
        ensures { HasMessages [] result }
    {
        Exchanges {
            requests_sent: Counts::new(alloc),
            responses_sent: Counts::new(alloc),
            requests: Requests::new(alloc),
            replies: Answers::new(alloc),
        }
    }

    /// The first later frame that answers the request in a frame's n-th layer of HTTP.
    pub fn find(&self, frame: u32, nth: u32) -> Option<u32>
        ensures { (ms : List MessageValue) → HasMessages ms self.now
            → result ≡ reply_to ms (frame, nth) }
    {
        self.replies.find(frame, u64::from(nth))
    }

    /// Notes the messages of a frame.
    pub fn note(&mut self, frame: u32, layers: &[Layer]) -> Result<(), NoMemory>
        ensures { OnOk result ((ms : List MessageValue) → HasMessages ms self.old
            → HasMessages (frame_on frame (direction_in layers.now) layers.now ms) self.new) }
    {
        match direction_in(layers) {
            Some(at) => self.note_layers(frame, at, layers),
            None => Ok(()),
        }
    }

    fn note_layers(&mut self, frame: u32, at: Direction, layers: &[Layer]) -> Result<(), NoMemory>
        ensures { OnOk result ((ms : List MessageValue) → HasMessages ms self.old
            → HasMessages (layers_on frame at layers.now ms) self.new) }
    {
        let mut left = layers;
        while let [layer, more @ ..] = left {
            self.note_layer(frame, at, layer)?;
            left = more;
        }
        Ok(())
    }

    fn note_layer(&mut self, frame: u32, at: Direction, layer: &Layer) -> Result<(), NoMemory>
        ensures { OnOk result ((ms : List MessageValue) → HasMessages ms self.old
            → HasMessages (with_message (message_of frame at layer.now) ms) self.new) }
    {
        match message_of(frame, at, layer) {
            Some(message) => self.note_message(message),
            None => Ok(()),
        }
    }

    fn note_message(&mut self, message: Message) -> Result<(), NoMemory>
        ensures { OnOk result ((ms : List MessageValue) → HasMessages ms self.old
            → HasMessages (message ∷ ms) self.new) }
    {
        match message.kind {
            Kind::Request => self.note_request(message),
            Kind::Response(link) => self.note_response(message, link),
        }
    }

    fn note_request(&mut self, message: Message) -> Result<(), NoMemory>
        requires { message.kind ≡ kinds.Request }
        ensures { OnOk result ((ms : List MessageValue) → HasMessages ms self.old
            → HasMessages (message ∷ ms) self.new) }
    {
        let Message { frame, nth, at, .. } = message;
        let number = self.requests_sent.find(at);
        let place = self.requests_sent.raise(at)?;
        self.requests.note(frame, number, Asked { place, nth })
    }

    fn note_response(&mut self, message: Message, link: Option<u64>) -> Result<(), NoMemory>
        requires { message.kind ≡ kinds.Response link }
        ensures { OnOk result ((ms : List MessageValue) → HasMessages ms self.old
            → HasMessages (message ∷ ms) self.new) }
    {
        let request = self.answered(message.at, link);
        self.replies.note_answered(message.frame, request)?;
        self.responses_sent.raise(message.at)?;
        Ok(())
    }

    /// The request that a direction's next final response answers, by its frame and its layer's number.
    fn answered(&self, at: Direction, link: Option<u64>) -> Option<(u64, u64)>
        ensures { (ms : List MessageValue) → HasMessages ms self.now
            → result ≡ answered ms at link }
    {
        let frame = link?;
        let request = self.request_of(frame, self.responses_sent.find(at))?;
        by_other(frame, at, request)
    }

    /// A frame's request that is the n-th of its direction, from 0: the direction, and the number of its layer. The number is told by
    /// a count. As there are never so many requests as the last count, that one tells none.
    #[tactic(auto, using(crate::proofs::MessageLemmas::request_found))]
    fn request_of(&self, frame: u64, number: u64) -> Option<(Direction, u32)>
        ensures { (ms : List MessageValue) (exact : ℕ) → HasMessages ms self.now
            → number ≡ counted exact → result ≡ request_of ms (frame, exact) }
    {
        self.request_in(frame, number)
    }

    fn request_in(&self, frame: u64, number: u64) -> Option<(Direction, u32)>
        ensures { result ≡ request_in self.now (frame, number) }
    {
        let asked = self.requests.find(frame, number)?;
        let at = self.requests_sent.at(asked.place)?;
        Some((at, asked.nth))
    }
}

fn by_other(frame: u64, at: Direction, request: (Direction, u32)) -> Option<(u64, u64)>
    ensures { result ≡ by_other frame at request }
{
    if is_other(request.0, at) {
        Some((frame, u64::from(request.1)))
    } else {
        None
    }
}

/// Whether two directions are those of one stream.
fn is_other(one: Direction, other: Direction) -> bool
    ensures { result ≡ is_other_direction one other }
{
    one.stream == other.stream && !is_same(one, other)
}

fn is_same(one: Direction, other: Direction) -> bool
    ensures { result ≡ same_direction one other }
{
    one.stream == other.stream
        && one.version == other.version
        && one.address == other.address
        && one.port == other.port
}
