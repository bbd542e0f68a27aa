// The tables that read the headers of plain frames.
ghost use Rattle.std.specs.Prelude.{◌≡◌, ◌∷◌, [], List, IfOk};
ghost use Rattle.pk_fields.specs.Ids.{DATA_DATA};
ghost use Rattle.pk_source.specs.Picks.{ArePlaces};
ghost use Rattle.dissect.specs.Tables.{AreTables, tables_listed};

use dis_ip::{ip4_slots, ip6_slots};
use dis_link::{eth_slots, vlan_slots};
use dis_ports::{tcp_slots, udp_slots};
use pk_fields::ids;
use pk_source::Table;
use pk_tree::Slot;

/// The tables that read the headers of a plain frame.
#[derive(Clone, Copy)]
pub(crate) struct Tables {
    /// Of the frame itself nothing is read.
    pub frame: &'static [Slot],
    pub eth: &'static [Slot],
    pub vlan: &'static [Slot],
    pub ip: &'static [Slot],
    pub ip6: &'static [Slot],
    pub tcp: &'static [Slot],
    pub udp: &'static [Slot],
    pub payload: &'static [Slot],
}

static FRAME: [Slot; 0] = [];

static DATA: [Slot; 1] = [Slot::Whole(ids::DATA_DATA.0, 0, 0)];

impl Tables {
    pub fn all() -> Tables
        ensures { AreTables result }
    {
        Tables {
            frame: frame_slots(),
            eth: eth_slots(false),
            vlan: vlan_slots(false),
            ip: ip4_slots(),
            ip6: ip6_slots(),
            tcp: tcp_slots(),
            udp: udp_slots(),
            payload: data_slots(),
        }
    }

    /// Each with its protocol.
    pub fn listed(&self) -> [Table; 8]
        ensures { result ≡ tables_listed self.now }
    {
        [
            Table {
                proto: ids::FRAME,
                slots: self.frame,
            },
            Table {
                proto: ids::ETH,
                slots: self.eth,
            },
            Table {
                proto: ids::VLAN,
                slots: self.vlan,
            },
            Table {
                proto: ids::IP,
                slots: self.ip,
            },
            Table {
                proto: ids::IPV6,
                slots: self.ip6,
            },
            Table {
                proto: ids::TCP,
                slots: self.tcp,
            },
            Table {
                proto: ids::UDP,
                slots: self.udp,
            },
            Table {
                proto: ids::DATA,
                slots: self.payload,
            },
        ]
    }
}

fn frame_slots() -> &'static [Slot]
    ensures { result.now ≡ [] }
{
    &FRAME
}

fn data_slots() -> &'static [Slot]
    ensures { result.now ≡ Slot.Whole DATA_DATA 0 0 ∷ [] }
{
    &DATA
}
