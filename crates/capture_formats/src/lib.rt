//! Reads both formats of capture files, from bytes that the caller holds. Of pcap the file header and the records, in both byte orders,
//! with microseconds and nanoseconds: pcap-savefile(5) of libpcap, and draft-ietf-opsawg-pcap. Of pcapng the blocks:
//! draft-ietf-opsawg-pcapng, with sections of both byte orders, interfaces of any resolution, and enhanced, simple and obsolete
//! packets; other blocks are passed over.
#![tactic(auto)]

mod block;
mod header;
mod interface;
mod options;
mod packet;
mod rate;
mod sections;
mod step;

pub use header::{HeadStep, PcapHead, head};
pub use packet::{ItemStep, next_item};
pub use sections::Sections;
pub use step::BlockStep;
