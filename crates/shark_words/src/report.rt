// What `-z` asks for.
ghost use Rattle.std.specs.Prelude.{◌≡◌, option_map};
ghost use Rattle.shark_words.specs.declared.options.Report.TheVariants.{Follow};
ghost use Rattle.shark_words.specs.Reports.{report_of, stream_of, table_of};

use crate::key::is_text;
use crate::number::number_behind;
use crate::options::Report;
use cap_stats::StatKind;

/// What stands before the number of a stream.
const FOLLOW: &[u8] = b"follow,tcp,raw,";

fn read_table(text: &[u8]) -> Option<StatKind>
    ensures { result ≡ table_of text.now }
{
    if is_text(text, b"conv,tcp") {
        Some(StatKind::ConvTcp)
    } else if is_text(text, b"conv,ip") {
        Some(StatKind::ConvIp)
    } else if is_text(text, b"io,phs") {
        Some(StatKind::Phs)
    } else {
        None
    }
}

fn read_stream(text: &[u8]) -> Option<Report>
    ensures { result ≡ option_map Follow (stream_of text.now) }
{
    let number = number_behind(FOLLOW, u64::from(u32::MAX), text)?;
    Some(Report::Follow(number as u32))
}

/// The report that a text asks for.
#[tactic(auto, unfolding(crate::specs::Reports::report_of))]
pub(crate) fn read_report(text: &[u8]) -> Option<Report>
    ensures { result ≡ report_of text.now }
{
    match read_table(text) {
        Some(table) => Some(Report::Table(table)),
        None => read_stream(text),
    }
}
