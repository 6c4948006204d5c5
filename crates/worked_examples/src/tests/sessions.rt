//! Sessions with files, repair symbols and lists.

use super::rows::{replays, replays_packets};
use super::same::same;
use std::alloc::{AllocError, Global};
use std::process::Abort;
use std::test::Fail;
use worked_runs::logs::EMPTY_INSTANCE_DATAGRAM;
use worked_runs::objects::{
    EMPTY_REPAIRS, HI_FILE, LIST_ABSENT, LIST_FALLING, LIST_FALLING_LATER, LIST_ITSELF,
    LIST_LINE_END, LIST_LONG, LIST_ONE, LIST_ONE_OF_TWO, LIST_OPEN, LIST_RANGES, LONG_LIST_FRONT,
};
use worked_runs::packets::{Coding, bent, packet, whole};
use worked_runs::pieces::Piece::{self, Bad, Cut, File, List};
use worked_runs::pieces::{ALL, packets_of};
use worked_runs::playing::{INSTALLS_1, INSTALLS_NOTHING, Outcome};

/// The file `hi` as object 1, and nothing else.
const HI: [(u128, &[u8]); 1] = [(1, b"hi")];

/// Instance 1 with the file is installed from object 2.
const INSTALLS_HI: Outcome<'static> = Outcome {
    status: 0,
    best: "instance 1\ndescriptor 2\nfiles 1\nfile 1 2\nlocation a\n",
    rest: "",
    shelf: Some((1, &HI)),
};

/// Packets of the file and its descriptor, and whether they install it or nothing.
const PIECES: [(u32, &[Piece], Outcome<'static>); 10] = [
    (1, &ALL, INSTALLS_HI),
    // The first and the fourth are lost.
    (2, &[List(1), List(2), File(1), File(2)], INSTALLS_HI),
    (3, &[File(2), List(2), File(0), List(0)], INSTALLS_HI),
    // The last symbol comes cut, whole, or filled with something else.
    (4, &[List(0), Cut, File(0), File(1)], INSTALLS_HI),
    (5, &[List(0), Cut, List(1), File(0), File(1)], INSTALLS_HI),
    (6, &[List(0), Bad, File(0), File(1)], INSTALLS_NOTHING),
    (7, &[List(0), Bad, File(0), File(1), List(1)], INSTALLS_HI),
    // One symbol of two, however often, is too few.
    (
        8,
        &[
            List(0),
            List(0),
            List(0),
            List(0),
            List(0),
            File(0),
            File(1),
        ],
        INSTALLS_NOTHING,
    ),
    (9, &[List(0), List(1), File(2), File(2)], INSTALLS_NOTHING),
    (10, &[List(0), List(1)], INSTALLS_NOTHING),
];

#[test]
fn any_symbols_of_a_block_are_enough(rt: HostRuntime) -> Result<(), Fail> {
    for (row, pieces, outcome) in &PIECES {
        let packets = packets_of(rt.alloc(), pieces)?;
        replays_packets(&rt, rt.alloc(), packets.as_slice(), outcome, *row)?;
    }
    Ok(())
}

/// The descriptor of instance 1 with an empty list in symbols of 14 bytes, a block of two.
const EMPTY: Coding = Coding {
    toi: 1,
    length: 28,
    symbol: 14,
    max_block: 2,
    max_n: 4,
};

#[test]
fn repair_symbols_alone_are_enough(rt: HostRuntime) -> Result<(), Fail> {
    let alloc = rt.alloc();
    let (second, third) = EMPTY_REPAIRS.split_at(14);
    let second = packet(alloc, EMPTY, 2, second)?;
    let third = packet(alloc, EMPTY, 3, third)?;
    let datagrams = [third.as_slice(), second.as_slice()];
    replays(&rt, alloc, &datagrams, &INSTALLS_1, 11)?;
    Ok(())
}

/// How many bytes stand between the front of that descriptor and the end of its metadata.
const FILLING: usize = 222;

/// The descriptor of 255 bytes.
fn long_list(alloc: Global) -> Result<Vec<u8>, AllocError> {
    let mut object = Vec::from_slice(alloc, LONG_LIST_FRONT)?;
    for _byte in 0..FILLING {
        object.push(b'a')?;
    }
    object.extend_from_slice(b"\r\n1-1")?;
    Ok(object)
}

/// That descriptor in symbols of one byte.
const LARGEST: Coding = Coding {
    toi: 2,
    length: 255,
    symbol: 1,
    max_block: 255,
    max_n: 255,
};

/// The packet of the file, those of that descriptor, and one of a symbol 255, which there isn't.
fn largest_block(alloc: Global, object: &[u8]) -> Result<Vec<Vec<u8>>, AllocError> {
    let mut packets = Vec::new(alloc);
    packets.push(whole(alloc, 1, HI_FILE)?)?;
    for (esi, byte) in (0..=u8::MAX).zip(object) {
        packets.push(packet(alloc, LARGEST, esi, &[*byte])?)?;
    }
    packets.push(packet(alloc, LARGEST, 255, &[0])?)?;
    Ok(packets)
}

#[test]
fn the_largest_block(rt: HostRuntime) -> Result<(), Fail> {
    let alloc = rt.alloc();
    let object = long_list(alloc)?;
    same(&rt, &object.len(), &255, 21);
    let packets = largest_block(alloc, object.as_slice())?;
    same(&rt, &packets.len(), &257, 22);
    replays_packets(&rt, alloc, packets.as_slice(), &INSTALLS_HI, 23)?;
    let most = packets.as_slice().get(..255).ok_or("most")?;
    replays_packets(&rt, alloc, most, &INSTALLS_NOTHING, 24)?;
    Ok(())
}

/// Instance 2 with the file is installed from object 3.
const INSTALLS_SECOND: Outcome<'static> = Outcome {
    status: 0,
    best: "instance 2\ndescriptor 3\nfiles 1\nfile 1 2\nlocation a\n",
    rest: "",
    shelf: Some((2, &HI)),
};

#[test]
fn a_file_of_two_instances(rt: HostRuntime) -> Result<(), Fail> {
    let alloc = rt.alloc();
    let file = whole(alloc, 1, HI_FILE)?;
    let first = whole(alloc, 2, LIST_ONE)?;
    let second = whole(alloc, 3, LIST_ONE_OF_TWO)?;
    let (file, first, second) = (file.as_slice(), first.as_slice(), second.as_slice());
    replays(&rt, alloc, &[file, first], &INSTALLS_HI, 31)?;
    replays(&rt, alloc, &[file, first, second], &INSTALLS_SECOND, 32)?;
    replays(&rt, alloc, &[second, file, first], &INSTALLS_SECOND, 33)?;
    Ok(())
}

/// The file `hi` as each of four objects.
const FOUR: [(u128, &[u8]); 4] = [(1, b"hi"), (2, b"hi"), (3, b"hi"), (7, b"hi")];

/// The instance with these four files is installed from object 8.
const INSTALLS_FOUR: Outcome<'static> = Outcome {
    status: 0,
    best: "instance 7\ndescriptor 8\nfiles 4\nfile 1 2\nlocation a\nfile 2 2\nlocation a\nfile 3 2\nlocation a\nfile 7 2\nlocation a\n",
    rest: "",
    shelf: Some((7, &FOUR)),
};

/// The instance without files is installed from object 8.
const INSTALLS_EMPTY: Outcome<'static> = Outcome {
    status: 0,
    best: "instance 7\ndescriptor 8\nfiles 0\n",
    rest: "",
    shelf: Some((7, &[])),
};

/// The lower instance is installed from object 9.
const INSTALLS_LOWER: Outcome<'static> = Outcome {
    status: 0,
    best: "instance 1\ndescriptor 9\nfiles 0\n",
    rest: "",
    shelf: Some((1, &[])),
};

/// Descriptors, and what they come to as object 8.
const LISTS: [(u32, &[u8], Outcome<'static>); 8] = [
    (41, LIST_RANGES, INSTALLS_FOUR),
    (42, LIST_LINE_END, INSTALLS_EMPTY),
    // Bad lists.
    (43, LIST_FALLING, INSTALLS_LOWER),
    (44, LIST_FALLING_LATER, INSTALLS_LOWER),
    (45, LIST_OPEN, INSTALLS_LOWER),
    (46, LIST_LONG, INSTALLS_LOWER),
    // Lists that are never complete.
    (47, LIST_ITSELF, INSTALLS_LOWER),
    (48, LIST_ABSENT, INSTALLS_LOWER),
];

#[test]
fn lists_of_identifiers(rt: HostRuntime) -> Result<(), Fail> {
    for (row, list, outcome) in &LISTS {
        let packets = with_files(rt.alloc(), list)?;
        replays_packets(&rt, rt.alloc(), packets.as_slice(), outcome, *row)?;
    }
    Ok(())
}

/// A lower instance as object 9, the descriptor as object 8, and the file as each of the objects 7, 3, 1 and 2.
fn with_files(alloc: Global, list: &[u8]) -> Result<Vec<Vec<u8>>, AllocError> {
    let mut packets = Vec::new(alloc);
    packets.push(bent(alloc, &EMPTY_INSTANCE_DATAGRAM, 15, 9)?)?;
    packets.push(whole(alloc, 8, list)?)?;
    for toi in [7u32, 3, 1, 2] {
        packets.push(whole(alloc, toi, HI_FILE)?)?;
    }
    Ok(packets)
}

/// The file with another byte at this place is no file, so that the descriptor that lists it installs nothing.
fn is_no_file(
    rt: &impl Abort,
    alloc: Global,
    at: usize,
    byte: u8,
    row: u32,
) -> Result<(), AllocError> {
    let object = bent(alloc, HI_FILE, at, byte)?;
    let file = whole(alloc, 1, object.as_slice())?;
    let list = whole(alloc, 2, LIST_ONE)?;
    let datagrams = [file.as_slice(), list.as_slice()];
    replays(rt, alloc, &datagrams, &INSTALLS_NOTHING, row)
}

#[test]
fn objects_that_are_no_files(rt: HostRuntime) -> Result<(), Fail> {
    // Compressed metadata, and a body that isn't the checksum's.
    is_no_file(&rt, rt.alloc(), 1, 1, 51)?;
    is_no_file(&rt, rt.alloc(), 49, b'h', 52)?;
    Ok(())
}

/// A header of 68 bytes: CCI of 16, TSI of 6, TOI of 14 bytes, EXT_NOP, EXT_TIME, an unknown extension, EXT_FTI.
const WIDE_HEADER: [u8; 68] = [
    0x1C, 0xF0, 0x11, 0x05, // version 1, C = 3, S = 1, O = 3, H = 1, 17 words, codepoint 5
    9, 9, 9, 9, 9, 9, 9, 9, 9, 9, 9, 9, 9, 9, 9, 9, // congestion control information
    0, 0, 0, 0, 0, 1, // TSI
    0, 0, 0, 0, 0, 0, 0, 0, 0, 0, 0, 0, 0, 1, // TOI
    0x00, 0x01, 0, 0, // EXT_NOP
    0x02, 0x02, 7, 7, 7, 7, 7, 7, // EXT_TIME
    0xC8, 8, 8, 8, // an unknown one
    0x40, 0x03, 0, 0, 0, 0, 0, 28, 0, 28, 1, 1, // EXT_FTI
];

#[test]
fn a_wide_header(rt: HostRuntime) -> Result<(), Fail> {
    let alloc = rt.alloc();
    let payload = EMPTY_INSTANCE_DATAGRAM.as_slice().get(28..);
    let mut datagram = Vec::from_slice(alloc, &WIDE_HEADER)?;
    datagram.extend_from_slice(payload.ok_or("payload")?)?;
    replays(&rt, alloc, &[datagram.as_slice()], &INSTALLS_1, 61)?;
    // An extension of no length is refused.
    let refused = bent(alloc, datagram.as_slice(), 41, 0)?;
    replays(&rt, alloc, &[refused.as_slice()], &INSTALLS_NOTHING, 62)?;
    Ok(())
}
