use crate::ending::Ending;
use crate::frame::Frame;

/// What comes next in a capture file.
#[derive(Drop)]
pub enum NextFrame {
    Frame(Frame),
    End(Ending),
}
