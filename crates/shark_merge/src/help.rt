/// The text of `--help`.
pub(crate) const HELP: &str = "\
shark_merge writes the frames of capture files in the order of their times, as one capture file.

Usage: shark_merge [-F pcap | -F pcapng] FILE...

  -F FORMAT    the format of what is written: pcapng, which is the default, or pcap, with times in nanoseconds
  FILE         a capture file, pcap or pcapng; 1 to 16 of them
  --help       this text, where it is the only word
  --version    the version, where it is the only word

The file goes to standard output, and nothing of it before all files are read. Frames of the same time stand in the order
of the files; a frame without a time stands behind those before it in its file.

  shark_merge monday.pcap tuesday.pcapng > both.pcapng
  shark_merge -F pcap a.pcap b.pcap > both.pcap

The exit status is 0 where all files were read and all frames written, and else says what went wrong: 1 bad words,
4 can't open, 5 read fault, 6 damaged file, 7 files too large, 8 write fault, 9 no memory, 10 a frame that doesn't fit.
A line on standard error says more.
";
