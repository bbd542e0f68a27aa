// What holds of every capture, stated on functions that do nothing.
ghost use Rattle.run_output.specs.JsonLaws.{MessagesToldOnce};
ghost use Rattle.run_output.specs.LineLaws.{LinesButNumbers, OthersLinesTakenOut};
ghost use Rattle.run_output.specs.ReportLaws.{FollowsAlone};

use dissect::{messages_stand_in_trees, others_number_alone};
use tcp_messages::messages_once;

/// Behind its first line, the report of a stream rests on the segments of its conversation alone.
pub fn follows_stand_alone()
    ensures { FollowsAlone }
{}

/// Where lines of JSON are written and no filter is given, each frame has a line, and each message of a TCP stream's direction is
/// shown by one of them, in the order of its bytes: it stands in the tree of that line with its application and its bytes.
pub fn messages_are_told_once()
    ensures { MessagesToldOnce }
{
    messages_once();
    messages_stand_in_trees();
}

/// Where columns and the filter ask for no numbers of frames or streams and no times since earlier frames, a frame's line rests on its own
/// datagrams and its own conversation: other conversations' frames may be taken out of a capture, and the lines of those that stay, with
/// other numbers, are the same.
pub fn others_lines_taken_out()
    ensures line { LinesButNumbers }
    ensures lines { OthersLinesTakenOut }
{
    others_number_alone();
}
