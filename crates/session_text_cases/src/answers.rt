//! What the readers answer.

use esi_base::{NoMemory, Octets, Stop};
use link_log::{LogStep, read_log};
use schedule_text::{Move, read_schedule};
use script_text::{ScriptStep, read_script};
use small_text::push_hex;
use std::alloc::Global;

/// How many steps are printed.
const PRINTED: usize = 8;

/// The steps of a log, how many they are, or its refusal.
pub fn log(alloc: Global, text: &[u8]) -> Result<Option<String>, NoMemory> {
    let log = match read_log(alloc, text) {
        Ok(log) => log,
        Err(stop) => return refused(alloc, stop),
    };
    let count = log.steps.len();
    let mut out = format!(in alloc; "{count} steps:")?;
    for step in log.steps.as_slice().iter().take(PRINTED) {
        out.push_str(log_step(alloc, step)?.as_str())?;
    }
    Ok(Some(out))
}

fn log_step(alloc: Global, step: &LogStep) -> Result<String, NoMemory> {
    match step {
        LogStep::Opened => Ok(String::from_str(alloc, " opened;")?),
        LogStep::Bytes { conn, octets } => {
            let hex = hex_of(alloc, octets)?;
            Ok(format!(in alloc; " bytes {conn} {hex};")?)
        }
        LogStep::Writable { conn } => Ok(format!(in alloc; " writable {conn};")?),
        LogStep::Closed { conn } => Ok(format!(in alloc; " closed {conn};")?),
        LogStep::Idle => Ok(String::from_str(alloc, " idle;")?),
        LogStep::Fail => Ok(String::from_str(alloc, " fail;")?),
        LogStep::Room { conn, octets } => Ok(format!(in alloc; " room {conn} {octets};")?),
    }
}

/// The moves of a schedule, how many they are, or its refusal.
pub fn schedule(alloc: Global, text: &[u8]) -> Result<Option<String>, NoMemory> {
    let schedule = match read_schedule(alloc, text) {
        Ok(schedule) => schedule,
        Err(stop) => return refused(alloc, stop),
    };
    let count = schedule.steps.len();
    let mut out = format!(in alloc; "{count} moves:")?;
    for step in schedule.steps.as_slice().iter().take(PRINTED) {
        out.push_str(move_text(alloc, step)?.as_str())?;
    }
    Ok(Some(out))
}

fn move_text(alloc: Global, step: &Move) -> Result<String, NoMemory> {
    match step {
        Move::Client => Ok(String::from_str(alloc, " client;")?),
        Move::Server => Ok(String::from_str(alloc, " server;")?),
        Move::Up { octets } => Ok(format!(in alloc; " up {octets};")?),
        Move::Down { octets } => Ok(format!(in alloc; " down {octets};")?),
        Move::Round { count } => Ok(format!(in alloc; " round {count};")?),
    }
}

/// The steps of a script, how many they are, or its refusal.
pub fn script(alloc: Global, text: &[u8]) -> Result<Option<String>, NoMemory> {
    let script = match read_script(alloc, text) {
        Ok(script) => script,
        Err(stop) => return refused(alloc, stop),
    };
    let count = script.steps.len();
    let mut out = format!(in alloc; "{count} steps:")?;
    for step in script.steps.as_slice().iter().take(PRINTED) {
        out.push_str(script_step(alloc, step)?.as_str())?;
    }
    Ok(Some(out))
}

fn script_step(alloc: Global, step: &ScriptStep) -> Result<String, NoMemory> {
    match step {
        ScriptStep::Attach { name, status } => {
            let name = hex_of(alloc, name)?;
            Ok(format!(in alloc; " attach {name} {status};")?)
        }
        ScriptStep::Send {
            name,
            octets,
            status,
        } => {
            let name = hex_of(alloc, name)?;
            let octets = hex_of(alloc, octets)?;
            Ok(format!(in alloc; " send {name} {octets} {status};")?)
        }
        ScriptStep::Expect { name, count } => {
            let name = hex_of(alloc, name)?;
            Ok(format!(in alloc; " expect {name} {count};")?)
        }
        ScriptStep::Listing => Ok(String::from_str(alloc, " list;")?),
    }
}

/// A refusal's number and place.
fn refused(alloc: Global, stop: Stop) -> Result<Option<String>, NoMemory> {
    match stop {
        Stop::Refused(refusal) => {
            let number = refusal.number;
            let line = refusal.place.line;
            let column = refusal.place.column;
            Ok(Some(format!(in alloc; "{number} {line}:{column}")?))
        }
        Stop::NoMemory => Err(NoMemory),
    }
}

/// Octets in hexadecimal; a long row is cut.
fn hex_of(alloc: Global, octets: &Octets) -> Result<String, NoMemory> {
    let len = octets.len();
    if len > PRINTED {
        return Ok(format!(in alloc; "({len})")?);
    }
    let mut hex = Octets::new(alloc);
    push_hex(&mut hex, octets.as_slice())?;
    let mut out = String::new(alloc);
    for digit in hex.as_slice() {
        out.push(char::from(*digit))?;
    }
    Ok(out)
}
