//! Cases of the manifest: each line of the input is a title, endpoints and requests, and is printed with its
//! manifest after it. A line that begins with `#` is a title of cases, and is printed as it is. README.md has
//! the form of a line.
#![tactic(auto)]

use case_words::octets_of;
use design_manifest::{Asked, manifest_text};
use esi_base::{LONGEST_TEXT, List, NoMemory, Octets};
use esi_types::{Directory, Endpoint, SIDE_ENDPOINTS, parse_type};
use serde_json::Value;
use std::alloc::Global;
use std::io;
use std::process::ExitCode;

/// What a case asks the manifest of.
#[derive(Debug, Drop)]
struct Case {
    title: Octets,
    to_server: List<Endpoint>,
    to_client: List<Endpoint>,
    requests: List<Asked>,
}

fn main(rt: HostRuntime) -> io::Result<ExitCode> {
    let alloc = rt.alloc();
    for line in rt.lines(alloc) {
        let line = line?;
        println!(rt; "{line}")?;
        if line.as_str().starts_with("#") || line.is_empty() {
            continue;
        }
        match answer_of(alloc, line.as_str()) {
            Ok(Some(answer)) => println!(rt; "    {answer}")?,
            Ok(None) => println!(rt; "    no case")?,
            Err(NoMemory) => {
                println!(rt; "out of memory")?;
                return Ok(ExitCode::from(1));
            }
        }
    }
    Ok(ExitCode::from(0))
}

/// The manifest of a case without its line feed, as it is and as it is written again once it was read; None
/// for a line that is no case, and where the two differ.
fn answer_of(alloc: Global, line: &str) -> Result<Option<String>, NoMemory> {
    let Some(case) = case_of(alloc, line)? else {
        return Ok(None);
    };
    if case.to_server.len() > SIDE_ENDPOINTS || case.to_client.len() > SIDE_ENDPOINTS {
        return Ok(None);
    }
    let directory = Directory {
        to_server: case.to_server,
        to_client: case.to_client,
    };
    let text = manifest_text(
        alloc,
        case.title.as_slice(),
        &directory,
        case.requests.as_slice(),
    )?;
    let Ok(text) = std::str::from_utf8(text.as_slice()) else {
        return Ok(None);
    };
    let Some(manifest) = text.strip_suffix("\n") else {
        return Ok(None);
    };
    let Ok(value) = Value::from_str(alloc, text) else {
        return Ok(None);
    };
    let again = value.to_string(alloc)?;
    if again.as_str() != manifest {
        return Ok(None);
    }
    Ok(Some(again))
}

/// The case of a line.
fn case_of(alloc: Global, line: &str) -> Result<Option<Case>, NoMemory> {
    let mut case = Case {
        title: List::new(alloc),
        to_server: List::new(alloc),
        to_client: List::new(alloc),
        requests: List::new(alloc),
    };
    let mut is_first = true;
    for part in line.split("|") {
        let part = part.trim();
        if is_first {
            is_first = false;
            let Some(title) = name_of(alloc, part)? else {
                return Ok(None);
            };
            case.title = title;
        } else if !add_part(alloc, &mut case, part)? {
            return Ok(None);
        }
    }
    Ok(Some(case))
}

/// Adds an endpoint or a request; false for a part that is neither.
fn add_part(alloc: Global, case: &mut Case, part: &str) -> Result<bool, NoMemory> {
    let Some((kind, rest)) = part.split_once(" ") else {
        return Ok(false);
    };
    let Some((first, second)) = rest.split_once(" ") else {
        return Ok(false);
    };
    let Some(name) = name_of(alloc, first)? else {
        return Ok(false);
    };
    if kind == "request" {
        let Some((service, bundle)) = second.split_once(" ") else {
            return Ok(false);
        };
        let Some(service) = name_of(alloc, service)? else {
            return Ok(false);
        };
        let Some(bundle) = name_of(alloc, bundle)? else {
            return Ok(false);
        };
        case.requests.add(Asked {
            id: name,
            service,
            bundle,
        })?;
        return Ok(true);
    }
    let text = second.as_bytes();
    if text.len() > LONGEST_TEXT {
        return Ok(false);
    }
    let Ok(ty) = parse_type(alloc, text) else {
        return Ok(false);
    };
    let endpoint = Endpoint { name, ty };
    if kind == "to_server" {
        case.to_server.add(endpoint)?;
    } else if kind == "to_client" {
        case.to_client.add(endpoint)?;
    } else {
        return Ok(false);
    }
    Ok(true)
}

/// The octets of a name: its own, or behind `0x` those that two digits each give.
fn name_of(alloc: Global, part: &str) -> Result<Option<Octets>, NoMemory> {
    match part.strip_prefix("0x") {
        Some(digits) => Ok(octets_of(alloc, digits)?.map(List::from_vec)),
        None => Ok(Some(List::from_slice(alloc, part.as_bytes())?)),
    }
}
