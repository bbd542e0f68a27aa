// What holds of the links of all messages, stated on a function that does nothing.
ghost use Rattle.message_links.specs.Laws.{AnswersBelong, AreCounted, LinksByPlace, LinksShown, NotesTold, OthersStandAlone, ResponsesBelong};

/// An answer of HTTP belongs to the request of its turn of the other side, a response of DNS to the latest query of its id in the
/// stream, and no other message to an earlier one. Messages are noted as their bytes tell, and their layers show their links.
pub fn links_go_back()
    ensures notes { NotesTold }
    ensures counted { AreCounted }
    ensures answers { AnswersBelong }
    ensures responses { ResponsesBelong }
    ensures others { OthersStandAlone }
    ensures places { LinksByPlace }
    ensures shown { LinksShown }
{}
