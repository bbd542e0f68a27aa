/// A format of capture files.
#[derive(Clone, Copy, PartialEq, Eq)]
pub enum Format {
    /// A pcap file, whose times count nanoseconds below the second.
    Pcap,
    /// A pcapng file of one section.
    Pcapng,
}
