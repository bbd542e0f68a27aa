// What holds of the links of all trees, stated on a function that does nothing.
ghost use Rattle.second_pass.specs.Back.{DirectionsRead, LayersNoted, NoOtherLinks, Part6Links, PartLinks, QueryLinks, RequestLinks, SegmentLinks, ValuesRead};
ghost use Rattle.second_pass.specs.Laws.{KeptLinks};
ghost use Rattle.second_pass.specs.Others.{OthersPass, OthersStay};

/// Trees that keep the items of some fields alone get the links that the whole trees get, if the fields of links are among
/// these.
pub fn kept_trees_get_the_same_links()
    ensures { KeptLinks }
{}

/// A layer is linked to the first later frame that leads back to it: a request of HTTP to the one with the response that answers
/// it, a query of DNS to the one with a response to it, the last header of a datagram's part and a segment's first header to the
/// one that names theirs among those that brought its parts. No other layer is linked.
pub fn links_lead_back()
    ensures requests { RequestLinks }
    ensures queries { QueryLinks }
    ensures parts { PartLinks }
    ensures parts6 { Part6Links }
    ensures segments { SegmentLinks }
    ensures no_others { NoOtherLinks }
{}

/// What this is said of is read from the trees: all their layers are noted, a field is a layer's first value of it, and a
/// segment's direction is that of its headers.
pub fn links_are_read_from_trees()
    ensures layers { LayersNoted }
    ensures values { ValuesRead }
    ensures directions { DirectionsRead }
{}

/// A frame that shows no message of DNS or HTTP, and names no other among those that brought its bytes, needn't be noted; and
/// where no later one names it, it gets no link.
pub fn other_frames_have_no_links()
    ensures pass { OthersPass }
    ensures stay { OthersStay }
{}
