//! Random sequences of frames, written and read again.

use crate::cutting;
use crate::written::{add_frame, add_text};
use case_words::{Numbers, octets_of};
use esi_base::List;
use h2_frames::{Frame, Role, Setting};
use std::alloc::{AllocError, Global};

/// Writes so many random sequences of frames, for both ends, reads each at a random cutting, and
/// reports how many had two frames or more, and how many did not come back; None where the text is no case.
pub fn answer(alloc: Global, text: &str) -> Result<Option<String>, AllocError> {
    let Some((seed, count)) = text.split_once(" ") else {
        return Ok(None);
    };
    let mut numbers = Numbers::new(seed.parse::<u32>().unwrap_or(0));
    let mut long: u32 = 0;
    let mut differing: u32 = 0;
    for _ in 0..count.parse::<u32>().unwrap_or(0) {
        let mut sequence = Sequence::new(alloc, &mut numbers)?;
        sequence.add_frames(alloc, &mut numbers)?;
        long = long.saturating_add(u32::from(sequence.frames > 1));
        if !sequence.comes_back(alloc, &mut numbers)? {
            differing = differing.saturating_add(1);
        }
    }
    let answer = format!(in alloc;
        "{long} sequences of two frames or more, {differing} read as others"
    )?;
    Ok(Some(answer))
}

/// Frames that were written one after another.
#[derive(Drop)]
struct Sequence {
    role: Role,
    octets: Vec<u8>,
    texts: String,
    frames: u32,
}

impl Sequence {
    /// The preface, where a server reads, and SETTINGS.
    fn new(alloc: Global, numbers: &mut Numbers) -> Result<Sequence, AllocError> {
        let mut sequence = Sequence {
            role: Role::Client,
            octets: Vec::new(alloc),
            texts: String::new(alloc),
            frames: 0,
        };
        if numbers.coin() {
            sequence.role = Role::Server;
            if let Some(preface) = octets_of(alloc, "preface")? {
                sequence.octets = preface;
            }
        }
        let first = settings(alloc, numbers)?;
        sequence.add(alloc, &first)?;
        Ok(sequence)
    }

    /// Adds 1 to 12 random frames; after HEADERS that is not whole comes its CONTINUATION.
    fn add_frames(&mut self, alloc: Global, numbers: &mut Numbers) -> Result<(), AllocError> {
        for _ in 0..numbers.below(12) + 1 {
            let frame = random_frame(alloc, numbers)?;
            self.add(alloc, &frame)?;
            if let Frame::Head {
                stream,
                last: false,
                ..
            } = &frame
            {
                self.add_continuations(alloc, *stream, numbers)?;
            }
        }
        Ok(())
    }

    /// Adds 1 to 3 CONTINUATION frames, the last one with END_HEADERS.
    fn add_continuations(
        &mut self,
        alloc: Global,
        stream: u32,
        numbers: &mut Numbers,
    ) -> Result<(), AllocError> {
        let more = numbers.below(3);
        for left in (0..more + 1).rev() {
            let octets = octets(alloc, numbers)?;
            let frame = Frame::Continued {
                stream,
                last: left == 0,
                octets,
            };
            self.add(alloc, &frame)?;
        }
        Ok(())
    }

    /// Adds a frame.
    fn add(&mut self, alloc: Global, frame: &Frame) -> Result<(), AllocError> {
        if add_frame(alloc, frame, &mut self.octets)? {
            add_text(alloc, &mut self.texts, frame)?;
            self.frames = self.frames.saturating_add(1);
        }
        Ok(())
    }

    /// Whether exactly these frames are read, at a random cutting.
    fn comes_back(&mut self, alloc: Global, numbers: &mut Numbers) -> Result<bool, AllocError> {
        self.texts.push_str("pending")?;
        let read = cutting::at_random(alloc, self.role, self.octets.as_slice(), numbers)?;
        Ok(read.as_str() == self.texts.as_str())
    }
}

/// A random frame that may stand outside a header block.
fn random_frame(alloc: Global, numbers: &mut Numbers) -> Result<Frame, AllocError> {
    match numbers.below(9) {
        0 | 1 => {
            let octets = octets(alloc, numbers)?;
            let flow = octets.len().min(4_294_967_295) as u32;
            Ok(Frame::Content {
                stream: stream(numbers),
                end: numbers.coin(),
                octets,
                flow,
            })
        }
        2 | 3 => Ok(Frame::Head {
            stream: stream(numbers),
            end: numbers.coin(),
            last: numbers.coin(),
            octets: octets(alloc, numbers)?,
        }),
        4 => settings(alloc, numbers),
        5 => Ok(Frame::Update {
            stream: stream(numbers),
            increment: numbers.below(2_147_483_648),
        }),
        6 => Ok(Frame::Ping {
            ack: numbers.coin(),
            octets: numbers.eight(),
        }),
        _ => Ok(short_frame(numbers)),
    }
}

/// A random frame of a few octets.
fn short_frame(numbers: &mut Numbers) -> Frame {
    match numbers.below(4) {
        0 => Frame::Priority {
            stream: stream(numbers),
        },
        1 => Frame::Reset {
            stream: stream(numbers),
            code: numbers.next(),
        },
        2 => Frame::GoAway {
            last: numbers.below(2_147_483_648),
            code: numbers.next(),
        },
        _ => Frame::SettingsAck,
    }
}

/// A stream: often a small one, sometimes any.
fn stream(numbers: &mut Numbers) -> u32 {
    if numbers.coin() {
        numbers.below(20) + 1
    } else {
        numbers.below(2_147_483_647) + 1
    }
}

/// Octets: often few, sometimes many.
fn octets(alloc: Global, numbers: &mut Numbers) -> Result<List<u8>, AllocError> {
    let bound = if numbers.below(20) == 0 { 3_000 } else { 30 };
    let mut octets = Vec::new(alloc);
    for _ in 0..numbers.below(bound) {
        octets.push((numbers.next() % 256) as u8)?;
    }
    Ok(List::from_vec(octets))
}

/// SETTINGS of 0 to 5 settings.
fn settings(alloc: Global, numbers: &mut Numbers) -> Result<Frame, AllocError> {
    let mut pairs = Vec::new(alloc);
    for _ in 0..numbers.below(6) {
        pairs.push(setting(numbers))?;
    }
    Ok(Frame::Settings {
        pairs: List::from_vec(pairs),
    })
}

/// A setting with a value that it may have at both ends.
fn setting(numbers: &mut Numbers) -> Setting {
    let id = (numbers.below(8) + 1) as u16;
    let value = match id {
        2 => 0,
        4 => numbers.below(2_147_483_648),
        5 => numbers.below(16_760_832) + 16_384,
        _ => numbers.next(),
    };
    Setting { id, value }
}
