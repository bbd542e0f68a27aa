/// What a table of statistics counts.
#[derive(Clone, Copy)]
pub enum StatKind {
    /// The frames and bytes of each TCP stream, in both directions.
    ConvTcp,
    /// The frames and bytes between each two IPv4 addresses, in both directions.
    ConvIp,
    /// The frames and bytes of each path of protocols.
    Phs,
}
