//! SETTINGS (RFC 9113, section 6.5).
ghost use Rattle.std.specs.Prelude.{◌≡◌, ◌≤◌, ◌+◌, length, IfOk};
ghost use Rattle.std.specs.List.{list_any, flat_map};
ghost use Rattle.h2_layouts.specs.PayloadReading.{settings_frame_of, settings_at as settings_there, broken_setting, acknowledged as acknowledged_by};
ghost use Rattle.esi_base.specs.Answers.{Reads};
ghost use Rattle.h2_layouts.specs.Rules.{settings_of as settings_in, pushes as pushes_to, is_window_too_large, is_frame_size_out_of_range, greatest_push};
ghost use Rattle.h2_layouts.specs.declared.frame.Frame.TheVariants.{Settings as settings, SettingsAck as settings_ack};
ghost use Rattle.h2_layouts.specs.declared.limit.TheConstants.{LONGEST_PAYLOAD};
ghost use Rattle.h2_layouts.specs.Writable.{are_lawful};
ghost use Rattle.h2_layouts.specs.Written.{octets_of, setting_octets as octets_of_setting};

use crate::flag::ACK;
use crate::frame::Frame;
use crate::frame_type::FrameType;
use crate::header::{FrameHeader, HEADER_OCTETS};
use crate::limit::{GREATEST_FRAME_SIZE, GREATEST_WINDOW, LONGEST_PAYLOAD};
use crate::placing::on_connection;
use crate::reading::PayloadStop;
use crate::role::Role;
use crate::rule::FrameRule;
use crate::setting::{ENABLE_PUSH, INITIAL_WINDOW_SIZE, MAX_FRAME_SIZE, Setting};
use crate::writing::{write_header, write_payload};
use esi_base::{List, NoMemory};
use std::alloc::Global;

/// How many octets a setting has.
const SETTING_OCTETS: usize = 6;

const _: () = prove!(SETTING_OCTETS == 6);

/// The frame that a payload is, for this end of the connection.
#[tactic(auto, unfolding(crate::specs::PayloadReading::settings_frame_of))]
pub(crate) fn read(
    alloc: Global,
    role: Role,
    header: FrameHeader,
    payload: &[u8],
) -> Result<Frame, PayloadStop>
    ensures { Reads (settings_frame_of role header payload.now) result }
{
    on_connection(header).map_err(PayloadStop::Refused)?;
    if header.has(ACK) {
        acknowledged(payload).map_err(PayloadStop::Refused)
    } else {
        settings_at(alloc, role, payload)
    }
}

/// An acknowledgement, which has no payload.
fn acknowledged(payload: &[u8]) -> Result<Frame, FrameRule>
    ensures { result ≡ acknowledged_by payload.now }
{
    if payload.is_empty() {
        Ok(Frame::SettingsAck)
    } else {
        Err(FrameRule::AckPayload)
    }
}

/// The settings that a payload is.
fn settings_at(alloc: Global, role: Role, payload: &[u8]) -> Result<Frame, PayloadStop>
    ensures { Reads (settings_there role payload.now) result }
{
    if payload.len() % SETTING_OCTETS != 0 {
        return Err(PayloadStop::Refused(FrameRule::SettingsLength));
    }
    let pairs = settings_of(alloc, payload)?;
    match broken_rule(role, pairs.as_slice()) {
        Some(rule) => Err(PayloadStop::Refused(rule)),
        None => Ok(Frame::Settings { pairs }),
    }
}

/// The settings that octets are, six octets each.
fn settings_of(alloc: Global, octets: &[u8]) -> Result<List<Setting>, NoMemory>
    ensures { IfOk result (λ pairs. pairs ≡ settings_in octets.now) }
{
    let mut pairs = List::new(alloc);
    let mut rest = octets;
    'settings: while let [a, b, c, d, e, f, following @ ..] = rest {
        let setting = Setting {
            id: u16::from_be_bytes([*a, *b]),
            value: u32::from_be_bytes([*c, *d, *e, *f]),
        };
        pairs.add(setting)?;
        rest = following;
    }
    Ok(pairs)
}

/// The first rule that a value breaks.
fn broken_rule(role: Role, pairs: &[Setting]) -> Option<FrameRule>
    ensures { result ≡ broken_setting role pairs.now }
{
    if pushes(role, pairs) {
        return Some(FrameRule::EnablePush);
    }
    if has_window_too_large(pairs) {
        return Some(FrameRule::InitialWindowSize);
    }
    if has_frame_size_out_of_range(pairs) {
        return Some(FrameRule::MaxFrameSize);
    }
    None
}

/// Whether an ENABLE_PUSH is greater than this end may read.
fn pushes(role: Role, pairs: &[Setting]) -> bool
    ensures { result ≡ list_any (pushes_to role) pairs.now }
{
    let greatest = greatest_push(role);
    pairs.iter().any(|setting| setting.id == ENABLE_PUSH && setting.value > greatest)
}

/// The greatest ENABLE_PUSH that an end may read: a server sends no 1.
fn greatest_push(role: Role) -> u32
    ensures { result ≡ greatest_push role }
{
    match role {
        Role::Server => 1,
        Role::Client => 0,
    }
}

/// Whether an INITIAL_WINDOW_SIZE is above 2^31 - 1.
fn has_window_too_large(pairs: &[Setting]) -> bool
    ensures { result ≡ list_any is_window_too_large pairs.now }
{
    pairs.iter().any(|setting| setting.id == INITIAL_WINDOW_SIZE && setting.value > GREATEST_WINDOW)
}

/// Whether a MAX_FRAME_SIZE is not 16,384 to 16,777,215.
fn has_frame_size_out_of_range(pairs: &[Setting]) -> bool
    ensures { result ≡ list_any is_frame_size_out_of_range pairs.now }
{
    pairs.iter().any(|setting| {
        setting.id == MAX_FRAME_SIZE
            && !(LONGEST_PAYLOAD <= setting.value && setting.value <= GREATEST_FRAME_SIZE)
    })
}

/// Whether settings are no more than a payload may have, with values that both ends may read.
pub(crate) fn are_lawful(pairs: &[Setting]) -> bool
    ensures { result ≡ are_lawful pairs.now }
{
    pairs.len() <= LONGEST_PAYLOAD as usize / SETTING_OCTETS
        && broken_rule(Role::Server, pairs).is_none()
        && broken_rule(Role::Client, pairs).is_none()
}

/// How many octets the payload of settings has.
#[tactic(auto, using(crate::proofs::Settings::settings_octets_len))]
pub(crate) fn payload_len(pairs: &[Setting]) -> usize
    requires { length (flat_map octets_of_setting pairs.now) ≤ LONGEST_PAYLOAD }
    ensures { result ≡ length (flat_map octets_of_setting pairs.now) }
{
    SETTING_OCTETS * pairs.len()
}

/// Writes an acknowledgement.
pub(crate) fn write_ack(out: &mut [u8])
    requires { length out.old ≡ 9 }
    ensures { out.new ≡ octets_of settings_ack }
{
    write_payload(FrameType::Settings, ACK, 0, &[], out);
}

/// Writes settings.
pub(crate) fn write(pairs: &[Setting], out: &mut [u8])
    requires small { length (flat_map octets_of_setting pairs.now) ≤ LONGEST_PAYLOAD }
    requires room { length out.old ≡ 9 + length (flat_map octets_of_setting pairs.now) }
    ensures { out.new ≡ octets_of (settings pairs.now) }
{
    write_header(FrameType::Settings, 0, 0, payload_len(pairs), out);
    let mut at = HEADER_OCTETS;
    for setting in pairs {
        out[at..at + SETTING_OCTETS].copy_from_slice(&setting_octets(*setting));
        at += SETTING_OCTETS;
    }
}

/// The octets of a setting.
fn setting_octets(setting: Setting) -> [u8; SETTING_OCTETS]
    ensures { result ≡ octets_of_setting setting }
{
    let [a, b] = setting.id.to_be_bytes();
    let [c, d, e, f] = setting.value.to_be_bytes();
    [a, b, c, d, e, f]
}
