ghost use Rattle.tcp_messages.specs.Brought.{MessagesOnce};
ghost use Rattle.tcp_messages.specs.Laws.{PlacesLaw, PortsLaw, ToldLaw};
ghost use Rattle.tcp_messages.specs.Renumbered.{AloneLaw, RenumberedLaw};

/// Each message of a TCP stream's direction is shown by one frame, in the order of its bytes.
pub fn messages_once()
    ensures { MessagesOnce }
{}

/// Where messages end, as the two ports of a segment tell, whichever of them sends, is the same in its whole conversation.
pub fn ports_law()
    ensures { PortsLaw }
{}

/// A message whose bytes all came with its frame's segment lies in that at its place; any other is gathered, with the frames that
/// brought it.
pub fn places_law()
    ensures { PlacesLaw }
{}

/// What the frame of a segment shows rests on the segments of its conversation, and on no frame's number: with other numbers in
/// the same order the same frames show the same messages.
pub fn messages_alone()
    ensures alone { AloneLaw }
    ensures renumbered { RenumberedLaw }
{}

/// What is told of a message says how it is framed.
pub fn told_law()
    ensures { ToldLaw }
{}
