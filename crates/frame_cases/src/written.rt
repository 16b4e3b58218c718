//! Frames that are written, and read again.

use crate::{cutting, text};
use case_words::octets_of;
use esi_base::List;
use h2_frames::{Frame, Role, Setting, frame_len, is_writable, write_frame};
use std::alloc::{AllocError, Global};

/// The octets of the frame that a text names, and what is read of them; None where the text names none.
pub fn answer(alloc: Global, text: &str) -> Result<Option<String>, AllocError> {
    let Some(frame) = frame_of(alloc, text)? else {
        return Ok(None);
    };
    let mut octets = Vec::new(alloc);
    if !add_frame(alloc, &frame, &mut octets)? {
        return Ok(Some(String::from_str(alloc, "not written")?));
    }
    let digits = text::of_octets(alloc, octets.as_slice())?;
    let again = read_again(alloc, &frame, octets.as_slice())?;
    Ok(Some(format!(in alloc; "octets{digits}; {again}")?))
}

/// Writes a frame at the end of octets; whether it is one that is written.
pub fn add_frame(alloc: Global, frame: &Frame, octets: &mut Vec<u8>) -> Result<bool, AllocError> {
    if !is_writable(frame) {
        return Ok(false);
    }
    let mut out = Vec::from_elem(alloc, 0u8, frame_len(frame))?;
    write_frame(frame, out.as_mut_slice());
    octets.extend_from_slice(out.as_slice())?;
    Ok(true)
}

/// Reads the octets of a frame at each cutting, after those with which a connection begins; CONTINUATION
/// after HEADERS of its stream. It reports whether the frame comes back, and nothing else.
fn read_again(alloc: Global, frame: &Frame, octets: &[u8]) -> Result<String, AllocError> {
    let mut all = Vec::new(alloc);
    let mut due = String::new(alloc);
    if !matches!(frame, Frame::Settings { .. }) {
        add_text(alloc, &mut due, &settings(alloc))?;
        add_frame(alloc, &settings(alloc), &mut all)?;
    }
    if let Frame::Continued { stream, .. } = frame {
        let head = Frame::Head {
            stream: *stream,
            end: false,
            last: false,
            octets: List::new(alloc),
        };
        add_text(alloc, &mut due, &head)?;
        add_frame(alloc, &head, &mut all)?;
    }
    all.extend_from_slice(octets)?;
    add_text(alloc, &mut due, frame)?;
    due.push_str("pending")?;
    let read = cutting::answer(alloc, Role::Client, all.as_slice())?;
    if read.as_str() == due.as_str() {
        String::from_str(alloc, "read as that frame")
    } else {
        format!(in alloc; "read as {read}")
    }
}

/// SETTINGS without settings.
fn settings(alloc: Global) -> Frame {
    Frame::Settings {
        pairs: List::new(alloc),
    }
}

/// Adds a frame's text, as a reading of it has it.
pub fn add_text(alloc: Global, texts: &mut String, frame: &Frame) -> Result<(), AllocError> {
    let text = text::of_frame(alloc, frame)?;
    texts.push_str(text.as_str())?;
    texts.push_str("; ")
}

/// The frame that a text names: its name, and its parts, as `DATA 1 yes 0102`; None where it names none.
/// A number that is missing is 0, and octets that are missing are none.
fn frame_of(alloc: Global, text: &str) -> Result<Option<Frame>, AllocError> {
    let (name, parts) = text.split_once(" ").unwrap_or((text, ""));
    let mut words = parts.split_whitespace();
    match name {
        "DATA" => {
            let stream = number(words.next());
            let end = yes(words.next());
            let octets = word_octets(alloc, words.next())?;
            let flow = octets.len().min(4_294_967_295) as u32;
            Ok(Some(Frame::Content {
                stream,
                end,
                octets,
                flow,
            }))
        }
        "HEADERS" => {
            let stream = number(words.next());
            let end = yes(words.next());
            let last = yes(words.next());
            let octets = word_octets(alloc, words.next())?;
            Ok(Some(Frame::Head {
                stream,
                end,
                last,
                octets,
            }))
        }
        "PRIORITY" => Ok(Some(Frame::Priority {
            stream: number(words.next()),
        })),
        "RST_STREAM" => {
            let stream = number(words.next());
            let code = number(words.next());
            Ok(Some(Frame::Reset { stream, code }))
        }
        "SETTINGS" => settings_of(alloc, parts),
        "PING" => {
            let ack = yes(words.next());
            let octets = word_octets(alloc, words.next())?;
            Ok(eight(octets.as_slice()).map(|octets| Frame::Ping { ack, octets }))
        }
        "GOAWAY" => {
            let last = number(words.next());
            let code = number(words.next());
            Ok(Some(Frame::GoAway { last, code }))
        }
        "WINDOW_UPDATE" => {
            let stream = number(words.next());
            let increment = number(words.next());
            Ok(Some(Frame::Update { stream, increment }))
        }
        "CONTINUATION" => {
            let stream = number(words.next());
            let last = yes(words.next());
            let octets = word_octets(alloc, words.next())?;
            Ok(Some(Frame::Continued {
                stream,
                last,
                octets,
            }))
        }
        _ => Ok(None),
    }
}

/// SETTINGS with settings as `4=65535`, or so many of one, as `900*4=65535`, or with ACK.
fn settings_of(alloc: Global, parts: &str) -> Result<Option<Frame>, AllocError> {
    if parts == "ACK" {
        return Ok(Some(Frame::SettingsAck));
    }
    let mut pairs = Vec::new(alloc);
    for word in parts.split_whitespace() {
        let (count, pair) = word.split_once("*").unwrap_or(("1", word));
        let (id, value) = pair.split_once("=").unwrap_or((pair, ""));
        let setting = Setting {
            id: id.parse::<u16>().unwrap_or(0),
            value: number(Some(value)),
        };
        for _ in 0..number(Some(count)) {
            pairs.push(setting)?;
        }
    }
    Ok(Some(Frame::Settings {
        pairs: List::from_vec(pairs),
    }))
}

/// The octets of a word.
fn word_octets(alloc: Global, word: Option<&str>) -> Result<List<u8>, AllocError> {
    let text = word.unwrap_or("");
    match octets_of(alloc, text)? {
        Some(octets) => Ok(List::from_vec(octets)),
        None => Ok(List::new(alloc)),
    }
}

/// Eight octets, where there are eight.
fn eight(octets: &[u8]) -> Option<[u8; 8]> {
    let [a, b, c, d, e, f, g, h] = octets else {
        return None;
    };
    Some([*a, *b, *c, *d, *e, *f, *g, *h])
}

/// A decimal number.
fn number(word: Option<&str>) -> u32 {
    word.unwrap_or("").parse::<u32>().unwrap_or(0)
}

/// Whether the word is `yes`.
fn yes(word: Option<&str>) -> bool {
    word.unwrap_or("") == "yes"
}
