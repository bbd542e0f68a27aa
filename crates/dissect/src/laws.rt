// What holds of the trees of every capture, stated on functions that do nothing.
ghost use Rattle.std.specs.Prelude.{◌≡◌, true};
ghost use Rattle.pk_fields.specs.FieldSets.{every_field};
ghost use Rattle.dissect.specs.Followed.{asks_streams};
ghost use Rattle.dissect.specs.Isolation.{OtherFrameLeftOut, OthersLeftOut, OthersPutIn, TreesStandAlone};
ghost use Rattle.dissect.specs.MessageLaws.{FramesShow, FramesTell, MessagesInTrees};
ghost use Rattle.dissect.specs.Numbering.{BringsTheSame, OthersTakenOut, TreesButNumbers};
ghost use Rattle.dissect.specs.Protocols.{LayersAreOnes};

/// Each layer of a frame's tree is of one of the protocols that layers are of.
pub fn layers_have_protocols()
    ensures { LayersAreOnes }
{}

/// Behind its last layer of TCP, a frame's tree shows the messages that the frame's segment brings, each with its bytes.
/// That layer tells the number of the segment's stream.
pub fn frames_show_messages()
    ensures messages { FramesShow }
    ensures stream { FramesTell }
{}

/// The messages of a direction of a TCP stream are those of its bytes in order: each whole one stands in the tree of one frame,
/// with its application and its bytes.
pub fn messages_stand_in_trees()
    ensures { MessagesInTrees }
{}

/// Of earlier frames a frame's tree rests on their times, on the fragments of its datagrams, on the segments of its conversation and on
/// the number of its stream, and its links on the messages noted of its stream; nothing else of them changes it.
pub fn trees_stand_alone()
    ensures { TreesStandAlone }
{}

/// Fragments of other datagrams and packets of other conversations may be left out of what came before a frame, or put in: where its
/// numbers stay the same, its tree without links does.
pub fn others_left_out()
    ensures left_out { OthersLeftOut }
    ensures put_in { OthersPutIn }
    ensures frame { OtherFrameLeftOut }
{}

/// But for the items that tell numbers of frames and streams, and times since earlier frames, a frame's tree rests on its own datagrams'
/// fragments and its own conversation's segments alone. So other conversations' frames may be taken out of a capture, and those that stay
/// be numbered anew: their trees are the same but for these items.
pub fn others_number_alone()
    ensures trees { TreesButNumbers }
    ensures brings { BringsTheSame }
    ensures taken_out { OthersTakenOut }
{}

/// All fields ask something of streams: a dissector of all fields that isn't made for values alone keeps everything.
pub fn all_fields_ask_streams()
    ensures { asks_streams every_field ≡ true }
{}
