//! What is installed, and what watchers hear of it.

use super::rows::{Wanted, datagrams, packets};
use std::test::Fail;
use watch_list::Event;
use worked_runs::logs::{EMPTY_INSTANCE_DATAGRAM, empty_instance};
use worked_runs::objects::{HI_FILE, LIST_ONE, LIST_ONE_OF_TWO};
use worked_runs::packets::{Coding, packet, whole, with_byte};
use worked_runs::pieces::Piece::{File, List};
use worked_runs::pieces::packets_of;
use worked_runs::playing::{INSTALLS_1, INSTALLS_NOTHING, Outcome, REPORT_OF_1};
use worked_runs::telling::new;

const INSTALLED_1: Event = Event::Installed { number: 1 };

const REPEAT: Event = Event::Repeat {
    toi: 1,
    sbn: 0,
    esi: 0,
};

/// The words that replay a log.
const REPLAY: [&str; 1] = ["replay"];

#[test]
fn an_empty_instance(rt: HostRuntime) -> Result<(), Fail> {
    let one = EMPTY_INSTANCE_DATAGRAM;
    let wanted = Wanted {
        outcome: INSTALLS_1,
        events: &[new(1, 0, true, true), INSTALLED_1],
    };
    datagrams(&rt, rt.alloc(), &REPLAY, &[&one], wanted, 1)?;
    Ok(())
}

#[test]
fn repeats_of_a_symbol(rt: HostRuntime) -> Result<(), Fail> {
    let five = [List(0), List(0), List(0), List(0), List(0)];
    let repeat = Event::Repeat {
        toi: 2,
        sbn: 0,
        esi: 0,
    };
    let wanted = Wanted {
        outcome: INSTALLS_NOTHING,
        events: &[new(2, 0, false, false), repeat, repeat, repeat, repeat],
    };
    let symbols = packets_of(rt.alloc(), &five)?;
    packets(&rt, rt.alloc(), &REPLAY, symbols.as_slice(), wanted, 2)?;
    Ok(())
}

/// The file `hi` as object 1.
const HI: [(u128, &[u8]); 1] = [(1, b"hi")];

/// Instance 1 with the file is installed from object 2.
const INSTALLS_HI: Outcome<'static> = Outcome {
    status: 0,
    best: "instance 1\ndescriptor 2\nfiles 1\nfile 1 2\nlocation a\n",
    rest: "",
    shelf: Some((1, &HI)),
};

/// Instance 2 with the file is installed from object 3.
const INSTALLS_SECOND: Outcome<'static> = Outcome {
    status: 0,
    best: "instance 2\ndescriptor 3\nfiles 1\nfile 1 2\nlocation a\n",
    rest: "",
    shelf: Some((2, &HI)),
};

/// The descriptor of instance 2 as object 3, in two symbols.
const SECOND: Coding = Coding {
    toi: 3,
    length: 29,
    symbol: 25,
    max_block: 2,
    max_n: 3,
};

#[test]
fn a_file_of_two_instances(rt: HostRuntime) -> Result<(), Fail> {
    let alloc = rt.alloc();
    let file = whole(alloc, 1, HI_FILE)?;
    let first = whole(alloc, 2, LIST_ONE)?;
    let (front, back) = LIST_ONE_OF_TWO.split_at(25);
    let front = packet(alloc, SECOND, 0, front)?;
    let back = packet(alloc, SECOND, 1, back)?;
    let list: [&[u8]; 4] = [
        file.as_slice(),
        first.as_slice(),
        front.as_slice(),
        back.as_slice(),
    ];
    let events = [
        new(1, 0, true, true),
        new(2, 0, true, true),
        INSTALLED_1,
        new(3, 0, false, false),
        new(3, 1, true, true),
        Event::Installed { number: 2 },
    ];
    let of_first = Wanted {
        outcome: INSTALLS_HI,
        events: &events[..3],
    };
    datagrams(&rt, alloc, &REPLAY, &list[..2], of_first, 3)?;
    let of_second = Wanted {
        outcome: INSTALLS_SECOND,
        events: &events,
    };
    datagrams(&rt, alloc, &REPLAY, &list, of_second, 4)?;
    Ok(())
}

/// Instance 3 with an empty list is installed from object 3.
const INSTALLS_3: Outcome<'static> = Outcome {
    best: "instance 3\ndescriptor 3\nfiles 0\n",
    shelf: Some((3, &[])),
    ..INSTALLS_1
};

#[test]
fn a_later_lower_number(rt: HostRuntime) -> Result<(), Fail> {
    let three = empty_instance(3, 3);
    let two = empty_instance(2, 2);
    let events = [
        new(3, 0, true, true),
        Event::Installed { number: 3 },
        new(2, 0, true, true),
    ];
    let wanted = Wanted {
        outcome: INSTALLS_3,
        events: &events,
    };
    datagrams(&rt, rt.alloc(), &REPLAY, &[&three, &two], wanted, 5)?;
    Ok(())
}

/// Instance 5 with an empty list is installed from object 4.
const INSTALLS_5: Outcome<'static> = Outcome {
    best: "instance 5\ndescriptor 4\nfiles 0\n",
    shelf: Some((5, &[])),
    ..INSTALLS_1
};

#[test]
fn equal_numbers(rt: HostRuntime) -> Result<(), Fail> {
    let nine = empty_instance(9, 5);
    let four = empty_instance(4, 5);
    let events = [
        new(9, 0, true, true),
        Event::Installed { number: 5 },
        new(4, 0, true, true),
        Event::Installed { number: 5 },
    ];
    let wanted = Wanted {
        outcome: INSTALLS_5,
        events: &events,
    };
    datagrams(&rt, rt.alloc(), &REPLAY, &[&nine, &four], wanted, 6)?;
    Ok(())
}

/// What was sent, without its first and its fourth datagram.
#[test]
fn what_is_sent_is_decoded(rt: HostRuntime) -> Result<(), Fail> {
    let events = [
        new(2, 1, false, false),
        new(2, 2, true, true),
        new(1, 1, false, false),
        new(1, 2, true, true),
        INSTALLED_1,
    ];
    let wanted = Wanted {
        outcome: INSTALLS_HI,
        events: &events,
    };
    let left = packets_of(rt.alloc(), &[List(1), List(2), File(1), File(2)])?;
    packets(&rt, rt.alloc(), &REPLAY, left.as_slice(), wanted, 7)?;
    Ok(())
}

#[test]
fn another_session(rt: HostRuntime) -> Result<(), Fail> {
    let one = EMPTY_INSTANCE_DATAGRAM;
    let wanted = Wanted {
        outcome: INSTALLS_NOTHING,
        events: &[Event::Elsewhere { tsi: 1 }],
    };
    let words = ["replay", "--tsi", "2"];
    datagrams(&rt, rt.alloc(), &words, &[&one], wanted, 8)?;
    Ok(())
}

/// Another symbol, and other transmission information, than what is held.
#[test]
fn what_differs_is_told(rt: HostRuntime) -> Result<(), Fail> {
    let alloc = rt.alloc();
    let one = EMPTY_INSTANCE_DATAGRAM;
    let symbol = with_byte(alloc, 59, 1)?;
    let information = with_byte(alloc, 27, 2)?;
    let list: [&[u8]; 3] = [&one, symbol.as_slice(), information.as_slice()];
    let events = [
        new(1, 0, true, true),
        INSTALLED_1,
        Event::SymbolDiffers {
            toi: 1,
            sbn: 0,
            esi: 0,
            at: 27,
        },
        Event::OtiDiffers { toi: 1 },
    ];
    let wanted = Wanted {
        outcome: INSTALLS_1,
        events: &events,
    };
    datagrams(&rt, alloc, &REPLAY, &list, wanted, 9)?;
    Ok(())
}

/// More datagrams came than may be taken.
const TOO_MANY: Outcome<'static> = Outcome {
    status: 11,
    best: REPORT_OF_1,
    rest: "too many datagrams\n",
    shelf: None,
};

#[test]
fn the_limit_of_datagrams(rt: HostRuntime) -> Result<(), Fail> {
    let one = EMPTY_INSTANCE_DATAGRAM;
    let list: [&[u8]; 2] = [&one, &one];
    let events = [new(1, 0, true, true), INSTALLED_1, REPEAT];
    let of_one = Wanted {
        outcome: TOO_MANY,
        events: &events[..2],
    };
    let words = ["replay", "--most", "1"];
    datagrams(&rt, rt.alloc(), &words, &list, of_one, 10)?;
    let of_both = Wanted {
        outcome: INSTALLS_1,
        events: &events,
    };
    let words = ["replay", "--most", "2"];
    datagrams(&rt, rt.alloc(), &words, &list, of_both, 11)?;
    Ok(())
}
