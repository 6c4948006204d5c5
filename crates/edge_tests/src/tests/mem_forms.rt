//! Sinks, sources, shelves and texts in memory, which fail at stated calls or never.

use super::same::same;
use edge_io::{
    Datagrams, Emit, Failed, FinishedInstance, MemDatagrams, MemEmit, MemShelf, MemText, Next,
    Place, Shelf, SureEmit, SureShelf, SureText, Text, Trouble,
};
use std::alloc::{AllocError, Global};
use std::process::Abort;
use std::test::Fail;

/// A UDP address.
const UDP: Place = Place::Udp {
    ip: [127, 0, 0, 1],
    port: 4001,
};

/// A failure of the device.
const FAILED: Result<(), Trouble> = Err(Trouble::Failed);

#[test]
fn text_in_memory_fails_at_the_stated_calls(rt: HostRuntime) -> Result<(), Fail> {
    let alloc = rt.alloc();
    let mut text = MemText::new(Vec::new(alloc), Vec::from_slice(alloc, &[2])?);
    same(&rt, &text.write(b"a"), &Ok(()), 1);
    same(&rt, &text.write(b"b"), &FAILED, 2);
    same(&rt, &text.write(b"c"), &Ok(()), 3);
    same(&rt, &text.written(), &b"ac".as_slice(), 4);

    let mut sure = SureText::new(Vec::new(alloc));
    same(&rt, &sure.write(b"hi"), &Ok(()), 5);
    same(&rt, &sure.written(), &b"hi".as_slice(), 6);
    Ok(())
}

#[test]
fn datagrams_in_memory_count_all_calls(rt: HostRuntime) -> Result<(), Fail> {
    let alloc = rt.alloc();
    let mut buffer = [0u8; 65_535];
    let mut source = MemDatagrams::new(Vec::new(alloc), Some(9), Vec::from_slice(alloc, &[1, 3])?);
    same(&rt, &source.connect(&UDP), &Err(Failed), 7);
    same(&rt, &source.connect(&UDP), &Ok(()), 8);
    same(&rt, &source.next(&mut buffer), &Next::Failed, 9);
    same(&rt, &source.next(&mut buffer), &Next::Torn(9), 10);
    Ok(())
}

/// Compares the number of the finished instance.
fn compare_finished(rt: &impl Abort, shelf: &MemShelf, wanted: Option<u32>, row: u32) {
    let number = shelf.finished().map(|instance| instance.number());
    same(rt, &number, &wanted, row);
}

/// Compares the number and the manifest of an instance with one file, and the file.
fn compare_instance(rt: &impl Abort, instance: &FinishedInstance) {
    same(rt, &instance.number(), &2, 11);
    same(rt, &instance.manifest(), &b"m".as_slice(), 12);
    same(rt, &instance.files().len(), &1, 13);
    if let [file] = instance.files() {
        same(rt, &file.toi(), &7, 14);
        same(rt, &file.body(), &b"hi".as_slice(), 15);
    }
}

#[test]
fn shelf_holds_the_finished_instance(rt: HostRuntime) -> Result<(), Fail> {
    let alloc = rt.alloc();
    let old = FinishedInstance::new(1, Vec::new(alloc), Vec::new(alloc));
    let mut shelf = MemShelf::new(alloc, Some(old), Vec::from_slice(alloc, &[1, 4])?);
    same(&rt, &shelf.begin(2), &FAILED, 16);
    compare_finished(&rt, &shelf, Some(1), 17);
    same(&rt, &shelf.begin(2), &Ok(()), 18);
    compare_finished(&rt, &shelf, None, 19);
    same(&rt, &shelf.put(7, b"hi"), &Ok(()), 20);
    same(&rt, &shelf.put(8, b"no"), &FAILED, 21);
    same(&rt, &shelf.finish(b"m"), &Ok(()), 22);
    same(&rt, &shelf.put(9, b""), &Ok(()), 23);
    same(&rt, &shelf.part_number(), &2, 24);
    same(&rt, &shelf.part_files().len(), &2, 25);
    compare_finished(&rt, &shelf, Some(2), 26);
    if let Some(instance) = shelf.finished() {
        compare_instance(&rt, instance);
    }
    Ok(())
}

#[test]
fn sure_shelf_never_fails(rt: HostRuntime) -> Result<(), Fail> {
    let mut shelf = SureShelf::new(rt.alloc(), None);
    same(&rt, &shelf.begin(3), &Ok(()), 27);
    same(&rt, &shelf.finish(b""), &Ok(()), 28);
    let number = shelf.finished().map(|instance| instance.number());
    same(&rt, &number, &Some(3), 29);
    Ok(())
}

/// A sink that never fails, to which one datagram was sent.
fn with_one(alloc: Global) -> Result<MemEmit, AllocError> {
    let before = Vec::from_slice(alloc, b"old")?;
    Ok(MemEmit::new(vec![in alloc; before]?, Vec::new(alloc)))
}

#[test]
fn sinks_keep_what_was_sent(rt: HostRuntime) -> Result<(), Fail> {
    let alloc = rt.alloc();
    let mut sure = SureEmit::new(alloc);
    same(&rt, &sure.connect(&Place::Log), &Ok(()), 30);
    same(&rt, &sure.send(b"hi"), &Ok(()), 31);
    same(&rt, &sure.connected, &Some(Place::Log), 32);
    same(&rt, &sure.sent.len(), &1, 33);

    let mut sink = with_one(alloc)?;
    same(&rt, &sink.send(b"hi"), &Ok(()), 34);
    same(&rt, &sink.sink.connected, &None, 35);
    same(&rt, &sink.connect(&Place::Log), &Ok(()), 36);
    same(&rt, &sink.sink.connected, &Some(Place::Log), 37);
    same(&rt, &sink.sent().len(), &2, 38);
    if let [_, sent] = sink.sent() {
        same(&rt, &sent.as_slice(), &b"hi".as_slice(), 39);
    }
    same(&rt, &sink.calls.failed, &0, 40);
    Ok(())
}

/// Whether the call of this number fails where `stated` is to.
fn answer_of(number: u32, stated: u32) -> Result<(), Trouble> {
    if number == stated { FAILED } else { Ok(()) }
}

/// Two connects and two sends, of which the call of this number fails: who was connected, and how
/// many datagrams were sent.
fn compare_sink(
    rt: &impl Abort,
    alloc: Global,
    call: u32,
    place: Place,
    count: usize,
    row: u32,
) -> Result<(), AllocError> {
    let mut sink = MemEmit::new(Vec::new(alloc), Vec::from_slice(alloc, &[call])?);
    same(rt, &sink.connect(&UDP), &answer_of(1, call), row);
    same(rt, &sink.send(b"a"), &answer_of(2, call), row);
    same(rt, &sink.connect(&Place::Log), &answer_of(3, call), row);
    same(rt, &sink.send(b""), &answer_of(4, call), row);
    same(rt, &sink.sink.connected, &Some(place), row);
    same(rt, &sink.sent().len(), &count, row);
    same(rt, &sink.calls.failed, &1, row);
    Ok(())
}

#[test]
fn sink_in_memory_fails_at_each_stated_call(rt: HostRuntime) -> Result<(), Fail> {
    let alloc = rt.alloc();
    compare_sink(&rt, alloc, 1, Place::Log, 2, 41)?;
    compare_sink(&rt, alloc, 2, Place::Log, 1, 42)?;
    compare_sink(&rt, alloc, 3, UDP, 2, 43)?;
    compare_sink(&rt, alloc, 4, Place::Log, 1, 44)?;
    Ok(())
}
