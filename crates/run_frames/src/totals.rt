// What is counted of the frames of a generated capture.
ghost use Rattle.std.specs.Prelude.{◌≡◌, ◌==◌, ◌<◌, ◌≤◌, ◌^◌, ℕ, suc, count_by, length};
ghost use Rattle.pk_source.specs.declared.header.Header.{Header as HeaderValue};
ghost use Rattle.pk_tree.specs.Trees.{layers_of as layers_among};
ghost use Rattle.run_frames.specs.Totals.{AreFew, nothing_counted, with_tree};

use pk_fields::FieldId;
use pk_fields::ids::{DNS, HTTP};
use pk_source::{Header, Lender, Outline, Source};
use pk_tree::Tree;

/// How many frames there were, how many of their trees the filter let through, how many layers they had of DNS and HTTP, and how many
/// steps the filter's program took.
#[derive(Clone, Copy)]
pub struct Totals {
    pub frames: u64,
    pub shown: u64,
    pub dns: u64,
    pub http: u64,
    pub steps: u64,
}

impl Totals {
    pub(crate) fn none() -> Totals
        ensures { result ≡ nothing_counted }
    {
        Totals {
            frames: 0,
            shown: 0,
            dns: 0,
            http: 0,
            steps: 0,
        }
    }

    /// One tree more, which the filter lets through or not.
    pub(crate) fn with(self, source: &Source<'_>, shown: bool) -> Totals
        requires { AreFew (2 ^ 28) self }
        ensures value { result ≡ with_tree source.now shown self }
        ensures few { (most : ℕ) → AreFew most self → AreFew (suc most) result }
    {
        Totals {
            frames: self.frames + 1,
            shown: self.shown + u64::from(shown),
            dns: self.dns + layers_of(source, DNS),
            http: self.http + layers_of(source, HTTP),
            steps: self.steps,
        }
    }
}

// How many layers of a protocol a frame has.
fn layers_of(source: &Source<'_>, proto: FieldId) -> u64
    ensures count { result ≡ layers_among proto source.now.layers }
    ensures few { result < 2 ^ 32 }
{
    match source.lender() {
        Lender::Tree(tree) => layers_in(tree, proto),
        Lender::Outline(outline) => headers_in(outline, proto),
    }
}

fn layers_in(tree: &Tree, proto: FieldId) -> u64
    ensures count { result ≡ layers_among proto tree.now.layers }
    ensures few { result < 2 ^ 32 }
{
    let layers = tree.layers();
    layers.iter().filter(|layer| layer.proto == proto).count() as u64
}

fn headers_in(outline: &Outline<'_>, proto: FieldId) -> u64
    ensures count { result ≡ layers_among proto outline.now.layers }
    ensures few { result < 2 ^ 32 }
{
    // What is true of each tree.
    outline.fits();
    count_in(outline.headers(), proto)
}

fn count_in(headers: &[Header], proto: FieldId) -> u64
    ensures count { result ≡ count_by (λ (h : HeaderValue). h.proto == proto) headers.now }
    ensures most { result ≤ length headers.now }
{
    headers
        .iter()
        .filter(|header| header.proto == proto)
        .count() as u64
}
