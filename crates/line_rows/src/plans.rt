//! Parts of what words ask for, with `; ` between them: a word, or a name and a value, as `filter: arp`.
use crate::lines::style_of;
use crate::words::number_of;
use cap_stats::StatKind;
use capture_write::Format;
use pk_base::Octets;
use pk_fields::{App, PortRule};
use shark_words::{LineKind, Options, Report, Source};

fn is_file(source: &Source, name: &str) -> bool {
    match source {
        Source::Named(text) => text.bytes() == name.as_bytes(),
        Source::Generated(_, _) => false,
    }
}

/// Whether a capture is generated of this number, with so many frames.
fn is_generated(source: &Source, numbers: &str) -> bool {
    match (source, numbers.split_once(' ')) {
        (Source::Generated(by, count), Some((number, frames))) => {
            number_of(number) == Some(*by) && number_of(frames) == Some(u64::from(*count))
        }
        _ => false,
    }
}

fn is_filter(filter: &Option<Octets>, wanted: &str) -> bool {
    match filter {
        Some(text) => text.bytes() == wanted.as_bytes(),
        None => false,
    }
}

fn is_most(most: Option<u32>, wanted: &str) -> bool {
    match most {
        Some(most) => number_of(wanted) == Some(u64::from(most)),
        None => false,
    }
}

fn is_app(app: App, name: &str) -> bool {
    match app {
        App::Dhcp => name == "dhcp",
        App::Plain => name == "data",
        _ => false,
    }
}

/// Whether a rule is a transport, a port and an application.
fn is_rule(rule: &PortRule, wanted: &str) -> bool {
    let (transport, rest) = wanted.split_once(' ').unwrap_or((wanted, ""));
    let (port, app) = rest.split_once(' ').unwrap_or((rest, ""));
    transport == if rule.tcp { "tcp" } else { "udp" }
        && number_of(port) == Some(u64::from(rule.port))
        && is_app(rule.app, app)
}

fn is_report(report: Report, wanted: &str) -> bool {
    match (report, wanted) {
        (Report::Table(StatKind::ConvTcp), "conv tcp")
        | (Report::Table(StatKind::ConvIp), "conv ip")
        | (Report::Table(StatKind::Phs), "phs") => true,
        (Report::Follow(stream), _) => match wanted.strip_prefix("follow ") {
            Some(number) => number_of(number) == Some(u64::from(stream)),
            None => false,
        },
        _ => false,
    }
}

/// Whether the list of this name has this at a place.
fn has_at(options: &Options, name: &str, place: usize, wanted: &str) -> bool {
    match name {
        "names" => match options.names.slice().get(place) {
            Some(name) => name.bytes() == wanted.as_bytes(),
            None => false,
        },
        "rules" => match options.decode.rules.slice().get(place) {
            Some(rule) => is_rule(rule, wanted),
            None => false,
        },
        "reports" => match options.reports.slice().get(place) {
            Some(report) => is_report(*report, wanted),
            None => false,
        },
        _ => false,
    }
}

fn length_of(options: &Options, name: &str) -> usize {
    match name {
        "names" => options.names.slice().len(),
        "rules" => options.decode.rules.slice().len(),
        _ => options.reports.slice().len(),
    }
}

/// Whether the list of this name is this.
fn has_list(options: &Options, name: &str, wanted: &str) -> bool {
    let mut place = 0usize;
    for item in wanted.split(", ") {
        if !has_at(options, name, place, item) {
            return false;
        }
        place = place.saturating_add(1);
    }
    place == length_of(options, name)
}

fn has_value(options: &Options, name: &str, value: &str) -> bool {
    match name {
        "file" => is_file(&options.source, value),
        "generated" => is_generated(&options.source, value),
        "filter" => is_filter(&options.filter, value),
        "most" => is_most(options.most, value),
        "style" => style_of(value) == Some(options.style),
        "name count" => number_of(value) == Some(length_of(options, "names") as u64),
        "rule count" => number_of(value) == Some(length_of(options, "rules") as u64),
        _ => has_list(options, name, value),
    }
}

fn has_word(options: &Options, word: &str) -> bool {
    match word {
        "ok" => true,
        "no filter" => options.filter.is_none(),
        "every frame" => options.most.is_none(),
        "one pass" => !options.two,
        "two passes" => options.two,
        "quiet" => options.quiet,
        "not quiet" => !options.quiet,
        "steps" => options.stats,
        "no steps" => !options.stats,
        "fields" => options.kind == LineKind::Fields,
        "nothing written" => options.written.is_none(),
        "pcap" => options.written == Some(Format::Pcap),
        "pcapng" => options.written == Some(Format::Pcapng),
        _ => false,
    }
}

pub(crate) fn has_parts(options: &Options, wanted: &str) -> bool {
    for part in wanted.split("; ") {
        let has = match part.split_once(": ") {
            Some((name, value)) => has_value(options, name, value),
            None => has_word(options, part),
        };
        if !has {
            return false;
        }
    }
    true
}
