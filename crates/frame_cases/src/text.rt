//! Frames as text.

use esi_base::List;
use h2_frames::{Frame, Setting};
use std::alloc::{AllocError, Global};

/// How many octets are printed whole.
const SHOWN: usize = 24;

/// A frame, by the names of RFC 9113.
pub fn of_frame(alloc: Global, frame: &Frame) -> Result<String, AllocError> {
    match frame {
        Frame::Content {
            stream,
            end,
            octets,
            flow,
        } => {
            let end = flag(*end, " END_STREAM");
            let octets = of_octets(alloc, octets.as_slice())?;
            format!(in alloc; "DATA on {stream}{end}, counts {flow}:{octets}")
        }
        Frame::Head {
            stream,
            end,
            last,
            octets,
        } => {
            let end = flag(*end, " END_STREAM");
            let last = flag(*last, " END_HEADERS");
            let octets = of_octets(alloc, octets.as_slice())?;
            format!(in alloc; "HEADERS on {stream}{end}{last}:{octets}")
        }
        Frame::Priority { stream } => format!(in alloc; "PRIORITY on {stream}"),
        Frame::Reset { stream, code } => format!(in alloc; "RST_STREAM on {stream}, code {code}"),
        Frame::Settings { pairs } => {
            let settings = of_settings(alloc, pairs)?;
            format!(in alloc; "SETTINGS{settings}")
        }
        Frame::SettingsAck => String::from_str(alloc, "SETTINGS ACK"),
        Frame::Ping { ack, octets } => {
            let ack = flag(*ack, " ACK");
            let octets = of_octets(alloc, octets.as_slice())?;
            format!(in alloc; "PING{ack}:{octets}")
        }
        Frame::GoAway { last, code } => format!(in alloc; "GOAWAY behind {last}, code {code}"),
        Frame::Update { stream, increment } => {
            format!(in alloc; "WINDOW_UPDATE on {stream} by {increment}")
        }
        Frame::Continued {
            stream,
            last,
            octets,
        } => {
            let last = flag(*last, " END_HEADERS");
            let octets = of_octets(alloc, octets.as_slice())?;
            format!(in alloc; "CONTINUATION on {stream}{last}:{octets}")
        }
        Frame::Unknown { kind } => format!(in alloc; "type {kind}"),
    }
}

/// The flag's name, where it is set.
fn flag(set: bool, name: &'static str) -> &'static str {
    if set { name } else { "" }
}

/// Settings, each after a blank; of many only how many there are, and the last one.
fn of_settings(alloc: Global, pairs: &List<Setting>) -> Result<String, AllocError> {
    let mut text = String::new(alloc);
    let shown = pairs.len() <= SHOWN;
    if !shown {
        let count = pairs.len();
        text = format!(in alloc; " {count} of them, the last")?;
    }
    for (at, setting) in pairs.as_slice().iter().enumerate() {
        if shown || at + 1 == pairs.len() {
            let id = setting.id;
            let value = setting.value;
            let pair = format!(in alloc; " {id}={value}")?;
            text.push_str(pair.as_str())?;
        }
    }
    Ok(text)
}

/// Octets in hexadecimal digits, after a blank where there are some; of many only how many there are,
/// and the sum of each times its position, counted from 1.
pub fn of_octets(alloc: Global, octets: &[u8]) -> Result<String, AllocError> {
    if octets.is_empty() {
        return String::from_str(alloc, " none");
    }
    if octets.len() > SHOWN {
        let count = octets.len();
        let sum = weighed(octets);
        return format!(in alloc; " {count} octets, weighed {sum}");
    }
    let mut text = String::from_str(alloc, " ")?;
    for octet in octets {
        let digits = format!(in alloc; "{octet:02x}")?;
        text.push_str(digits.as_str())?;
    }
    Ok(text)
}

/// The sum of each octet times its position, counted from 1.
fn weighed(octets: &[u8]) -> u64 {
    let mut sum: u64 = 0;
    let mut place: u64 = 0;
    for octet in octets {
        place = place.wrapping_add(1);
        sum = sum.wrapping_add(place.wrapping_mul(u64::from(*octet)));
    }
    sum
}
