use pk_base::Octets;

/// What became of a frame.
#[derive(Drop)]
pub enum Added {
    /// It was added: these bytes follow those before.
    Bytes(Octets),
    /// It doesn't fit into the file.
    Unfit,
}
