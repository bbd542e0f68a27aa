// The text of `--help`.
use pk_outside::{Sink, SinkFault, write_whole};

/// Options that belong together, a line each: behind the dash stands the letter, or a long name.
pub(crate) struct Group {
    pub(crate) title: &'static str,
    pub(crate) options: &'static [&'static str],
}

pub(crate) static GROUPS: [Group; 5] = [
    Group {
        title: "The capture:",
        options: &[
            "-r FILE      the capture file, pcap or pcapng",
            "-c N         read at most N frames, 1 to 4294967295",
            "--self-run NUMBER,FRAMES    in place of -r a capture made from a number, 1 to 200000 frames; one line sums it up",
        ],
    },
    Group {
        title: "What is read and shown:",
        options: &[
            "-Y FILTER    show only the frames that satisfy this filter; without it all are shown",
            "-2           two passes: a request also shows the frame of its response",
            "-d RULE      read a port as another application, again and again: tcp.port==N,P with P http, dns or data, or udp.port==N,P with P dns, dhcp or data",
        ],
    },
    Group {
        title: "Lines:",
        options: &[
            "-T KIND      the kind of line: text, a summary, which is the default; fields, the values of fields; json, all of a frame",
            "-e FIELD     with -T fields a column, again and again: any field or protocol",
            "-E KEY=V     with -T fields: header=y, separator=, aggregator=, occurrence=f or l, quote=d or s",
            "-q           no header line and no lines of frames",
        ],
    },
    Group {
        title: "Behind the lines:",
        options: &[
            "-z REPORT    a report, again and again: conv,tcp or conv,ip, conversations; io,phs, protocols; follow,tcp,raw,N, the bytes of TCP stream N",
            "--filter-stats    with -Y how the filter was worked out: its program, and how many steps it took",
        ],
    },
    Group {
        title: "A capture file in place of lines:",
        options: &[
            "-w -         the frames as a capture file on standard output",
            "-F FORMAT    with -w the format of that file: pcapng, which is the default, or pcap, with times in nanoseconds",
        ],
    },
];

const HEAD: &str = "\
shark reads a capture file and prints a line for each frame that satisfies a display filter.

Usage: shark -r FILE [-Y FILTER] [-2] [-c N] [-d RULE]... [-q] [-T text | -T json | -T fields -e FIELD... [-E KEY=V]...] [-z REPORT]... [--filter-stats]
       shark -r FILE [-Y FILTER] [-2] [-c N] [-d RULE]... -w - [-F pcap | -F pcapng]
       shark --self-run NUMBER,FRAMES [-Y FILTER] [-2] [-c N] [-d RULE]... [-z REPORT]... [--filter-stats]

";

const TAIL: &str = "  --help       this text, where it is the only word
  --version    the version, where it is the only word

A filter is one of Wireshark's display filters: fields and protocols compared with values or each other (==, !=, ===, !==,
<, <=, >, >=, contains, matches, in {..}), slices, layers, masks, sums, differences, products, len, count, upper, lower,
min and max, joined by not, and, xor, or.
For example: ip.addr == 10.0.0.0/8 and not udp.port in {53, 5353}

  shark -r web.pcap -Y dns -T fields -e frame.number -e dns.qry.name
  shark -r web.pcap -d tcp.port==8000,http -Y http -T json | jq .layers
  shark -r web.pcap -Y dns -w - -F pcap > dns.pcap

The exit status is 0 where the whole file was read and the whole output written, and else says what went wrong:
1 bad words, 2 bad filter, 3 unknown field, 4 can't open, 5 read fault, 6 damaged file, 7 file too large, 8 write fault,
9 no memory, 10 a frame that doesn't fit into the file that is written. A line on standard error says more.
";

fn write_group<O: Sink>(group: &Group, out: &mut O) -> Result<(), SinkFault> {
    write_whole(out, group.title.as_bytes())?;
    write_whole(out, b"\n")?;
    for option in group.options {
        write_whole(out, b"  ")?;
        write_whole(out, option.as_bytes())?;
        write_whole(out, b"\n")?;
    }
    write_whole(out, b"\n")
}

/// Writes the text.
pub(crate) fn write_help<O: Sink>(out: &mut O) -> Result<(), SinkFault> {
    write_whole(out, HEAD.as_bytes())?;
    for group in &GROUPS {
        write_group(group, out)?;
    }
    write_whole(out, TAIL.as_bytes())
}
