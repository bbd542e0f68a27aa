ghost use Rattle.std.specs.Prelude.{◌≡◌, ◌+◌, ◌<◌, ◌≤◌, ◌^◌, ◌++◌, ◌∷◌, [], Some, length, if◌then◌else◌, IfOk, OnOk, OnErr};
ghost use Rattle.tcp_streams.specs.declared.ends.Ends.{Ends as EndsValue};
ghost use Rattle.tcp_streams.specs.Conversations.{number_of, same_ends};
ghost use Rattle.message_links.specs.Conversations.{udp_ends, with_ends, number_in, AreNumbered};

use pk_base::{Endpoint, NoMemory, PacketHead, PortsHead};
use std::alloc::Global;
use std::marker::Model;
use tcp_streams::{Ends, Newest, ends_between};

/// The conversations so far, in the order of their first packets.
pub struct Conversations {
    all: Vec<Ends>,
    /// The place of each.
    numbers: Newest,
}

impl Drop for Conversations {
    fn drop(self) {
        let Conversations {
            all: _all,
            numbers: _numbers,
        } = self;
    }
}

impl Model for Conversations {
    ghost use Rattle.std.specs.Prelude.{List};
    ghost use Rattle.tcp_streams.specs.declared.ends.Ends.{Ends as EndsValue};
    ghost use Rattle.message_links.specs.Conversations.{AreNumbered};

    ghost Value = { List EndsValue };

    ghost view = { λ c. c.all.items };

    ghost invariant = { λ c. AreNumbered c.all.items c.numbers };
}

impl Conversations {
    pub fn new(alloc: Global) -> Conversations
        ensures { result ≡ [] }
    {
        Conversations {
            all: Vec::new(alloc),
            numbers: Newest::new(alloc),
        }
    }

    /// How many there are.
    pub fn count(&self) -> u32
        requires { length self.now < 2 ^ 32 }
        ensures { result ≡ length self.now }
    {
        self.all.len() as u32
    }

    /// The number of a packet's conversation, which is a new one where none has these ends.
    pub fn number(&mut self, ends: Ends) -> Result<u32, NoMemory>
        requires { length self.old + 1 < 2 ^ 32 }
        ensures number { IfOk result (λ number. number ≡ number_in self.old ends) }
        ensures known { OnOk result (self.new ≡ with_ends self.old ends) }
        ensures err { OnErr result (self.new ≡ self.old) }
        ensures most { length self.new ≤ length self.old + 1 }
        ensures fits { IfOk result (λ number. number < 2 ^ 32) }
    {
        number_among(&mut self.all, &mut self.numbers, ends)
    }
}

fn number_among(all: &mut Vec<Ends>, numbers: &mut Newest, ends: Ends) -> Result<u32, NoMemory>
    requires few { length all.old.items + 1 < 2 ^ 32 }
    requires numbered { AreNumbered all.old.items numbers.old }
    ensures number { IfOk result (λ number. number ≡ number_in all.old.items ends) }
    ensures known { OnOk result (all.new.items ≡ with_ends all.old.items ends) }
    ensures err { OnErr result (all.new.items ≡ all.old.items) }
    ensures numbered { AreNumbered all.new.items numbers.new }
    ensures most { length all.new.items ≤ length all.old.items + 1 }
{
    match numbers.find(ends) {
        Some(number) => Ok(number),
        None => add(all, numbers, ends),
    }
}

/// Numbers a conversation that is none of those so far.
fn add(all: &mut Vec<Ends>, numbers: &mut Newest, ends: Ends) -> Result<u32, NoMemory>
    requires few { length all.old.items + 1 < 2 ^ 32 }
    ensures number { IfOk result (λ number. number ≡ length all.old.items) }
    ensures known { OnOk result (all.new.items ≡ all.old.items ++ ends ∷ []) }
    ensures set { OnOk result ((other : EndsValue) → number_of numbers.new other
        ≡ (if same_ends ends other then Some (length all.old.items)
        else number_of numbers.old other)) }
    ensures err { OnErr result (all.new.items ≡ all.old.items) }
    ensures kept { OnErr result ((other : EndsValue) → number_of numbers.new other
        ≡ number_of numbers.old other) }
    ensures most { length all.new.items ≤ length all.old.items + 1 }
{
    let number = all.len() as u32;
    all.push(ends)?;
    if numbers.set(ends, number).is_err() {
        all.pop();
        return Err(NoMemory);
    }
    Ok(number)
}

/// The ends of a packet of UDP.
pub fn udp_ends(packet: &PacketHead, head: PortsHead) -> Ends
    ensures { result ≡ udp_ends packet.now head }
{
    let source = Endpoint {
        address: packet.source,
        port: head.source,
    };
    let target = Endpoint {
        address: packet.target,
        port: head.target,
    };
    ends_between(source, target)
}
