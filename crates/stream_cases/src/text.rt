//! Events and octets as text.

use h2_streams::CallEvent;
use hpack::Headers;
use std::alloc::{AllocError, Global};

/// How many octets are printed whole.
pub const SHOWN: usize = 64;

/// How many are printed of more.
const LAST: usize = 17;

/// An event.
pub fn of_event(alloc: Global, event: &CallEvent) -> Result<String, AllocError> {
    match event {
        CallEvent::Head {
            stream,
            headers,
            end,
        } => {
            let list = of_headers(alloc, headers)?;
            let end = flag(*end);
            format!(in alloc; "head {stream}{end}{list}")
        }
        CallEvent::Part {
            stream,
            octets,
            flow,
            end,
        } => {
            let end = flag(*end);
            let count = octets.len();
            format!(in alloc; "part {stream}{end} {count} of {flow}")
        }
        CallEvent::Reset { stream, code } => format!(in alloc; "reset {stream} {code}"),
        CallEvent::Broken { code } => format!(in alloc; "broken {code}"),
    }
}

fn flag(end: bool) -> &'static str {
    if end { " end" } else { "" }
}

/// The fields of a list, each after a blank, with `=` between name and value.
fn of_headers(alloc: Global, headers: &Headers) -> Result<String, AllocError> {
    let mut text = String::new(alloc);
    for header in headers.as_slice() {
        text.push_str(" ")?;
        push_ascii(&mut text, header.name.as_slice(), alloc)?;
        text.push_str("=")?;
        push_ascii(&mut text, header.value.as_slice(), alloc)?;
    }
    Ok(text)
}

/// Adds octets as characters; of many how many there are.
fn push_ascii(text: &mut String, octets: &[u8], alloc: Global) -> Result<(), AllocError> {
    if octets.len() > SHOWN {
        let count = octets.len();
        let note = format!(in alloc; "({count} octets)")?;
        return text.push_str(note.as_str());
    }
    for octet in octets {
        text.push(*octet as char)?;
    }
    Ok(())
}

/// How many octets there are, and which; of more than are shown whole the last ones.
pub fn of_output(alloc: Global, octets: &[u8], shown: usize) -> Result<String, AllocError> {
    let count = octets.len();
    let mut text = format!(in alloc; "output {count}")?;
    let from = if count <= shown {
        0
    } else {
        count.saturating_sub(LAST)
    };
    text.push_str(if from == 0 { " " } else { " .. " })?;
    for octet in &octets[from..] {
        let digits = format!(in alloc; "{octet:02x}")?;
        text.push_str(digits.as_str())?;
    }
    Ok(text)
}
