ghost use Rattle.std.specs.Prelude.{◌≡◌};

use crate::frame::Frame;
use std::marker::Model;

/// A list of frames.
#[derive(Drop)]
pub struct FrameList {
    all: Vec<Frame>,
}

impl Model for FrameList {
    ghost use Rattle.std.specs.Prelude.{List};
    ghost use Rattle.capture_read.specs.declared.frame.Frame.{Frame};

    ghost Value = { List Frame };

    ghost view = { λ l. l.all.items };
}

impl FrameList {
    pub fn from_vec(v: Vec<Frame>) -> FrameList
        ensures { result ≡ v.items }
    {
        FrameList { all: v }
    }

    pub fn slice(&self) -> &[Frame]
        ensures { result.now ≡ self.now }
    {
        self.all.as_slice()
    }
}
