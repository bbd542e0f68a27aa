ghost use Rattle.std.specs.Prelude.{◌≡◌, ◌↔◌, IsTrue};
ghost use Rattle.flt_typed.specs.Contains.{StandsIn, contains};

/// Whether the needle stands somewhere in the text. An empty one stands in each.
#[tactic(auto, using(crate::proofs::ContainsLemmas::search_contains, crate::proofs::ContainsLemmas::contains_stands))]
pub fn contains(text: &[u8], needle: &[u8]) -> bool
    ensures computed { result ≡ contains text.now needle.now }
    ensures stands { IsTrue result ↔ StandsIn text.now needle.now }
{
    memchr::memmem::find(text, needle).is_some()
}
