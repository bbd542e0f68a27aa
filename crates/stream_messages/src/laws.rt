ghost use Rattle.stream_messages.specs.Tellings.{ToldLaws};
ghost use Rattle.stream_messages.specs.Messages.{NewLaws, PrefixLaw, StretchLaw};
ghost use Rattle.stream_messages.specs.Cursors.{CursorLaws};
ghost use Rattle.stream_messages.specs.Sides.{SideLaws};

/// A first message has a byte, lies in the bytes, and depends on nothing behind it.
pub fn first_laws()
    ensures { ToldLaws }
{}

/// What longer bytes add to the messages of a stretch are those that end in the new bytes.
pub fn prefix_law()
    ensures { PrefixLaw }
{}

/// The messages of stretches are those of the stretches before they grew, and behind them the new ones.
pub fn stretch_law()
    ensures { StretchLaw }
{}

/// Which messages of stretches are new where the last one has grown, and where others have begun.
pub fn new_laws()
    ensures { NewLaws }
{}

/// How a cursor is kept from one look at a stretch to the next.
pub fn cursor_laws()
    ensures { CursorLaws }
{}

/// What a response is asked by is fixed when its first byte comes, and each message of a direction is shown by one frame.
pub fn side_laws()
    ensures { SideLaws }
{}
