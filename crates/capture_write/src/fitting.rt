ghost use Rattle.std.specs.Prelude.{◌≡◌, not, nat_lt, length};
ghost use Rattle.pk_base.specs.Limits.{captured_limit};
ghost use Rattle.capture_write.specs.Frames.{is_time_below, nanoseconds_of, is_order_kept};
ghost use Rattle.capture_write.specs.Kept.{order_by, fits_by};
ghost use Rattle.capture_write.specs.Pcap.{fits_pcap};
ghost use Rattle.capture_write.specs.Pcapng.{fits_by_time, fits_pcapng};

use crate::format::Format;
use crate::links::Links;
use capture_read::Frame;
use pk_base::CAPTURED_LIMIT;

/// 2^32 seconds, in nanoseconds.
const SECONDS_LIMIT: u128 = (1 << 32) * 1_000_000_000;

/// 2^64 nanoseconds.
const NANOSECONDS_LIMIT: u128 = 1 << 64;

/// The file's byte order with one frame more.
pub fn order_by(order: Option<bool>, frame: &Frame) -> bool
    ensures { result ≡ order_by order frame.now }
{
    order.unwrap_or(frame.little)
}

/// Whether a frame fits behind those that brought these link types.
pub fn fits(format: Format, little: bool, links: &Links, frame: &Frame) -> bool
    ensures { result ≡ fits_by format little links.now frame.now }
{
    match format {
        Format::Pcap => fits_pcap(little, links.first().unwrap_or(frame.link), frame),
        Format::Pcapng => fits_pcapng(little, links, frame),
    }
}

fn fits_pcap(little: bool, link: u16, frame: &Frame) -> bool
    ensures { result ≡ fits_pcap little link frame.now }
{
    keeps_order(little, frame)
        && is_short(frame)
        && frame.link == link
        && is_time_below(SECONDS_LIMIT, frame.time)
}

fn fits_pcapng(little: bool, links: &Links, frame: &Frame) -> bool
    ensures { result ≡ fits_pcapng little links.now frame.now }
{
    keeps_order(little, frame) && is_short(frame) && fits_time(links, frame)
}

/// Whether a frame of link type 0 has the file's byte order.
fn keeps_order(little: bool, frame: &Frame) -> bool
    ensures { result ≡ is_order_kept little frame.now }
{
    frame.link != 0 || frame.little == little
}

fn is_short(frame: &Frame) -> bool
    ensures { result ≡ not (nat_lt captured_limit (length frame.now.bytes)) }
{
    frame.bytes.bytes().len() <= CAPTURED_LIMIT as usize
}

fn fits_time(links: &Links, frame: &Frame) -> bool
    ensures { result ≡ fits_by_time links.now frame.now frame.now.time }
{
    match frame.time {
        Some(_) => is_time_below(NANOSECONDS_LIMIT, frame.time),
        None => {
            links.place(frame.link) == 0 && frame.original as usize == frame.bytes.bytes().len()
        }
    }
}

fn is_time_below(limit: u128, time: Option<i128>) -> bool
    ensures { result ≡ is_time_below limit time }
{
    match time {
        Some(time) => time >= 0 && (time as u128) < limit,
        None => false,
    }
}

/// The nanoseconds of a time that isn't before 1970.
pub fn nanoseconds(time: Option<i128>) -> u128
    ensures { result ≡ nanoseconds_of time }
{
    match time {
        Some(time) if time >= 0 => time as u128,
        _ => 0,
    }
}
