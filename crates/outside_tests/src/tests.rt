//! What no clause and no program of the repository shows, with ample memory.
use esi_base::{List, Octets};
use esi_links::{
    Event, Files, LinkStop, Links, MemorySink, OutStop, Sink, SureLinks, read_whole,
    sure_links_law, write_whole,
};
use link_log::{Log, LogStep};
use memory_links::{MemoryLinks, memory_links_law};
use std::alloc::{AllocError, Global};
use std::test::Fail;
use std::{env, fs, io};
use system_adapters::{DiskFiles, StdSink};

/// A device that takes no octets.
const FULL_DEVICE: &str = "/dev/full";

/// Whether a text was read whole, and is this one.
fn reads<F: Files>(alloc: Global, files: &mut F, name: &str, limit: u16, text: &[u8]) -> bool {
    match read_whole(alloc, files, name, usize::from(limit)) {
        Ok(octets) => octets.as_slice() == text,
        Err(_) => false,
    }
}

/// Whether reading a text is a fault.
fn faults<F: Files>(alloc: Global, files: &mut F, name: &str) -> bool {
    match read_whole(alloc, files, name, 16) {
        Ok(_) => false,
        Err(stop) => stop == OutStop::Fault,
    }
}

#[test]
fn sure_links_tell_their_events_and_then_idle(rt: HostRuntime) -> Result<(), Fail> {
    let mut events = List::new(rt.alloc());
    assert!(rt; events.push(Event::Opened { conn: 0 }).is_ok());
    let octets = Octets::from_slice(rt.alloc(), b"octets")?;
    assert!(rt; events.push(Event::Bytes { conn: 0, octets }).is_ok());
    let mut links = SureLinks::new(rt.alloc(), events);
    assert_eq!(rt; links.listen("127.0.0.1:0"), Ok(()));
    assert!(rt; matches!(&links.next(), Ok(Event::Opened { conn: 0 })));
    let six = match links.next() {
        Ok(Event::Bytes { conn: 0, octets }) => octets.len() == 6,
        _ => false,
    };
    assert!(rt; six);
    assert!(rt; matches!(&links.next(), Ok(Event::Idle)));
    assert_eq!(rt; links.send(0, b"octets"), Ok(6));
    assert_eq!(rt; links.drop_conn(0), Ok(()));
    let mut links = SureLinks::new(rt.alloc(), List::new(rt.alloc()));
    assert_eq!(rt; links.connect("127.0.0.1:0"), Ok(0));
    sure_links_law(&links);
    Ok(())
}

#[test]
fn memory_links_play_a_log(rt: HostRuntime) -> Result<(), Fail> {
    let mut steps = List::new(rt.alloc());
    assert!(rt; steps.push(LogStep::Opened).is_ok());
    assert!(rt; steps.push(LogStep::Room { conn: 0, octets: 4 }).is_ok());
    let octets = Octets::from_slice(rt.alloc(), b"PRI")?;
    assert!(rt; steps.push(LogStep::Bytes { conn: 0, octets }).is_ok());
    assert!(rt; steps.push(LogStep::Fail).is_ok());
    let Ok(mut links) = MemoryLinks::from_log(rt.alloc(), Log { steps }) else {
        return Err(Fail::from("out of memory"));
    };
    assert_eq!(rt; links.add(LogStep::Closed { conn: 0 }), Ok(()));
    assert_eq!(rt; links.unread(), 4);
    assert_eq!(rt; links.listen("127.0.0.1:0"), Ok(()));
    assert!(rt; matches!(&links.next(), Ok(Event::Opened { conn: 0 })));
    assert_eq!(rt; links.send(0, b"SETTINGS"), Ok(8));
    let three = match links.next() {
        Ok(Event::Bytes { conn: 0, octets }) => octets.len() == 3,
        _ => false,
    };
    assert!(rt; three);
    assert_eq!(rt; links.send(0, b"SETTINGS"), Ok(4));
    assert_eq!(rt; links.send(0, b"SETTINGS"), Ok(0));
    assert!(rt; matches!(&links.next(), Err(LinkStop::Fault)));
    assert!(rt; matches!(&links.next(), Ok(Event::Closed { conn: 0 })));
    assert!(rt; matches!(&links.next(), Ok(Event::Idle)));
    assert!(rt; links.sent_to(0) == b"SETTINGSSETT".as_slice());
    assert!(rt; links.sent_to(1).is_empty());
    assert_eq!(rt; links.unread(), 0);
    memory_links_law(&links);
    Ok(())
}

#[test]
fn memory_links_fail_where_they_were_told_to(rt: HostRuntime) -> Result<(), Fail> {
    let steps = List::new(rt.alloc());
    let Ok(mut links) = MemoryLinks::from_log(rt.alloc(), Log { steps }) else {
        return Err(Fail::from("out of memory"));
    };
    let mut failing = List::new(rt.alloc());
    assert!(rt; failing.push(0).is_ok());
    links.set_failing(failing);
    links.set_piece(2);
    assert_eq!(rt; links.connect("127.0.0.1:0"), Err(LinkStop::Fault));
    assert_eq!(rt; links.connect("127.0.0.1:0"), Ok(0));
    assert_eq!(rt; links.send(0, b"octets"), Ok(2));
    assert_eq!(rt; links.drop_conn(0), Ok(()));
    assert_eq!(rt; links.send(0, b"octets"), Ok(0));
    assert!(rt; links.sent_to(0) == b"oc".as_slice());
    Ok(())
}

#[test]
fn a_sink_takes_at_most_a_piece(rt: HostRuntime) -> Result<(), Fail> {
    let mut sink = MemorySink::with_piece(rt.alloc(), 5, List::new(rt.alloc()));
    assert_eq!(rt; sink.write(b"got 2a out"), Ok(5));
    assert_eq!(rt; write_whole(&mut sink, b"a out"), Ok(()));
    assert!(rt; sink.written() == b"got 2a out".as_slice());
    Ok(())
}

/// A text longer than what one call reads, of which no two pieces are alike.
fn long_text(alloc: Global) -> Result<Vec<u8>, AllocError> {
    let mut text = Vec::new(alloc);
    for number in 0..10_000u32 {
        text.push((number % 251) as u8)?;
    }
    Ok(text)
}

#[test]
fn files_of_the_system(rt: HostRuntime) -> Result<(), Fail> {
    let alloc = rt.alloc();
    let folder = env::temp_dir(&rt)?;
    let folder = folder.to_str().ok_or("a path that is no text")?;
    let mut name = env::temp_dir(&rt)?;
    name.push("esi_links_files_of_the_system")?;
    let name = name.to_str().ok_or("a path that is no text")?;
    let text = long_text(alloc)?;
    let mut files = DiskFiles::new(rt.clone()?);
    assert_eq!(rt; files.write(name, text.as_slice()), Ok(()));
    assert!(rt; reads(alloc, &mut files, name, 16_384, text.as_slice()));
    assert_eq!(rt; files.write(name, b"esi 1;"), Ok(()));
    assert!(rt; reads(alloc, &mut files, name, 16, b"esi 1;"));
    assert_eq!(rt; files.write(name, b""), Ok(()));
    assert!(rt; reads(alloc, &mut files, name, 16, b""));
    fs::remove_file(&rt, name)?;
    assert!(rt; faults(alloc, &mut files, name));
    assert!(rt; faults(alloc, &mut files, folder));
    assert_eq!(rt; files.write(folder, b"esi 1;"), Err(OutStop::Fault));
    Ok(())
}

/// Linux has a device that is always full.
#[test]
fn a_full_device(rt: HostRuntime) -> Result<(), Fail> {
    if fs::open(&rt, FULL_DEVICE).is_ok() {
        let mut files = DiskFiles::new(rt.clone()?);
        assert_eq!(rt; files.write(FULL_DEVICE, b"esi 1;"), Err(OutStop::Fault));
        let mut sink = StdSink::new(fs::create(&rt, FULL_DEVICE)?);
        assert_eq!(rt; write_whole(&mut sink, b"esi 1;"), Err(OutStop::Fault));
    }
    Ok(())
}

/// A writer that takes two octets at a time, up to a room, and then none.
#[derive(Drop)]
struct Narrow {
    room: usize,
}

impl io::Write for Narrow {
    fn write(&mut self, buf: &[u8]) -> io::Result<usize> {
        let count = self.room.min(2).min(buf.len());
        self.room -= count;
        Ok(count)
    }

    fn flush(&mut self) -> io::Result<()> {
        Ok(())
    }
}

#[test]
fn std_sinks_write_through(rt: HostRuntime) {
    let mut sink = StdSink::new(Narrow { room: 7 });
    assert_eq!(rt; write_whole(&mut sink, b"seven!"), Ok(()));
    assert_eq!(rt; sink.write(b""), Ok(0));
    assert_eq!(rt; write_whole(&mut sink, b"two"), Err(OutStop::Fault));
}
