// What holds of the tables of all trees, stated on functions that do nothing.
ghost use Rattle.cap_stats.specs.Laws.{AlikeTable, BareUnread, KeptTable};

/// Trees that keep the items of some fields alone have the same table as the whole trees, if these are among the fields.
pub fn kept_trees_have_the_same_table()
    ensures { KeptTable }
{}

/// Trees that show the same segments, packets or paths have the same table of these. The tables of conversations read no layers
/// without items that stand behind all others, as those of messages do of which nothing is wanted.
pub fn conversations_need_no_bare_layers()
    ensures alike { AlikeTable }
    ensures unread { BareUnread }
{}
