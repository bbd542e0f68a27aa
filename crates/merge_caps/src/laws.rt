// What holds of merging, stated on functions that do nothing.
ghost use Rattle.merge_caps.specs.Laws.{MergedByTime, OneMerged};

/// Files have one list of merged frames.
pub fn merged_frames_are_unique()
    ensures { OneMerged }
{}

/// Merged frames are those of the files, each once, ascending in time. Those of the same time stand in the order of the files and
/// then in that of their file.
pub fn merged_frames_stand_by_time()
    ensures { MergedByTime }
{}
