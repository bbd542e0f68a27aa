ghost use Rattle.tcp_streams.specs.Acknowledged.{GapsLaw};
ghost use Rattle.tcp_streams.specs.Acks.{AcksLaw};
ghost use Rattle.tcp_streams.specs.LetGo.{KeptLaw};

/// With a segment its direction passes all gaps that the other side has acknowledged, in order, and nothing else.
pub fn gaps_passed()
    ensures { GapsLaw }
{}

/// An acknowledgment number raises what is acknowledged of the other direction to the position that it means, and nothing else does.
pub fn places_acknowledged()
    ensures { AcksLaw }
{}

/// What is kept of a direction of which bytes were let go, goes on as the direction does.
pub fn kept_goes_on()
    ensures { KeptLaw }
{}
