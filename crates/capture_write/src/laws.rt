// What holds of the files of all lists of frames, stated on a function that does nothing.
ghost use Rattle.capture_write.specs.Laws.{FitWhereHeld, WrittenIsReadBack};

/// Frames fit into a file exactly where its format holds each of them, and the file of these frames is read as exactly these.
pub fn written_files_are_read_back()
    ensures held { FitWhereHeld }
    ensures read_back { WrittenIsReadBack }
{}
