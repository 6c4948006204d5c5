//! Commands with their values, words that are no command, and addresses.

use super::telling::{Kind, Told, add, check_told, check_usage, six, words_of};
use meta_text::Label;
use std::alloc::{AllocError, Global};
use std::test::Fail;

/// Which command it is, its catalog and its address.
type Head = (Kind, &'static str, Option<[u8; 4]>);

#[test]
fn commands_with_their_values(rt: HostRuntime) -> Result<(), Fail> {
    let cases: [(u32, &[&str], Head, &[Option<u64>]); 13] = [
        (
            1,
            &["replay"],
            (Kind::Replay, "", None),
            &[Some(1), Some(67108864), Some(4294967295)],
        ),
        (
            2,
            &["replay", "--most", "2", "--tsi", "0", "--budget", "4096"],
            (Kind::Replay, "", None),
            &[Some(0), Some(4096), Some(2)],
        ),
        (
            3,
            &["recv", "--addr", "127.0.0.1", "--port", "9", "--count", "3"],
            (Kind::Recv, "", Some([127, 0, 0, 1])),
            &[Some(1), Some(67108864), Some(9), Some(3)],
        ),
        (
            4,
            &[
                "recv",
                "--count",
                "3",
                "--port",
                "9",
                "--budget",
                "5000",
                "--addr",
                "127.000.00.1",
                "--tsi",
                "7",
            ],
            (Kind::Recv, "", Some([127, 0, 0, 1])),
            &[Some(7), Some(5000), Some(9), Some(3)],
        ),
        (
            5,
            &["send", "--catalog", "c"],
            (Kind::Send, "c", None),
            &[None, Some(1024), Some(64), Some(128), Some(1), Some(1)],
        ),
        (
            6,
            &[
                "send",
                "--catalog",
                "c",
                "--symbol",
                "25",
                "--block",
                "2",
                "--maxn",
                "3",
            ],
            (Kind::Send, "c", None),
            &[None, Some(25), Some(2), Some(3), Some(1), Some(1)],
        ),
        (
            7,
            &[
                "send",
                "--tsi",
                "5",
                "--cycles",
                "4",
                "--port",
                "1",
                "--addr",
                "255.1.2.3",
                "--catalog",
                "\u{E9}t\u{E9}=1",
            ],
            (Kind::Send, "\u{E9}t\u{E9}=1", Some([255, 1, 2, 3])),
            &[Some(1), Some(1024), Some(64), Some(128), Some(4), Some(5)],
        ),
        (8, &["dump"], (Kind::Dump, "", None), &[Some(4294967295)]),
        (
            9,
            &["dump", "--most", "00000000000000000007"],
            (Kind::Dump, "", None),
            &[Some(7)],
        ),
        (
            10,
            &["drill", "--start", "18446744073709551615"],
            (Kind::Drill, "", None),
            &[Some(18446744073709551615)],
        ),
        (
            11,
            &["listen"],
            (Kind::Listen, "", None),
            &[
                Some(1),
                Some(67108864),
                Some(4294967295),
                None,
                None,
                Some(1),
            ],
        ),
        (
            12,
            &["listen", "--readers", "16", "--most", "3"],
            (Kind::Listen, "", None),
            &[Some(1), Some(67108864), Some(3), None, None, Some(16)],
        ),
        (
            13,
            &[
                "listen", "--count", "2", "--addr", "0.0.0.0", "--most", "3", "--port", "65535",
            ],
            (Kind::Listen, "", Some([0, 0, 0, 0])),
            &[
                Some(1),
                Some(67108864),
                Some(3),
                Some(65535),
                Some(2),
                Some(1),
            ],
        ),
    ];
    for (row, words, head, numbers) in cases {
        let wanted = Told {
            kind: head.0,
            addr: head.2,
            numbers: six(numbers),
        };
        let words = words_of(rt.alloc(), words)?;
        check_told(&rt, rt.alloc(), &words, wanted, head.1, row)?;
    }
    Ok(())
}

#[test]
fn words_that_are_no_command(rt: HostRuntime) -> Result<(), Fail> {
    check_usage(&rt, rt.alloc(), &[], 99);
    let cases: [(u32, &[&str]); 84] = [
        // The command's word.
        (100, &[""]),
        (101, &["Replay"]),
        (102, &["REPLAY"]),
        (103, &["replay", ""]),
        (104, &["", "replay"]),
        (105, &["replay", "replay"]),
        (106, &["play"]),
        (107, &["--help"]),
        (108, &["--version"]),
        (109, &["-h"]),
        (110, &["help"]),
        (111, &["replay", "--help"]),
        (112, &["replay", "-h"]),
        (113, &["replay", "help"]),
        (114, &["replay", "--help", "x"]),
        (115, &["replay", "--version", "x"]),
        (116, &["--most", "1"]),
        // The shape of a pair.
        (117, &["replay", "--most"]),
        (118, &["replay", "--most=1"]),
        (119, &["replay", "--most=1", "1"]),
        (120, &["replay", "--"]),
        (121, &["replay", "--", "1"]),
        (122, &["replay", "--", "--most", "1"]),
        (123, &["replay", "--most", "1", "--"]),
        (124, &["replay", "-most", "1"]),
        (125, &["replay", "most", "1"]),
        (126, &["replay", "-m", "1"]),
        (127, &["replay", "1", "--most"]),
        (128, &["replay", "", "1"]),
        (129, &["replay", "--most", ""]),
        (130, &["replay", "--most", "--tsi"]),
        (131, &["replay", "--most", "-1"]),
        (132, &["replay", "--most", "+1"]),
        (133, &["replay", "--mos", "1"]),
        (134, &["replay", "--MOST", "1"]),
        (135, &["replay", "--most", "", "1"]),
        (136, &["replay", "--most", "1", ""]),
        (137, &["replay", "--=most", "1"]),
        (138, &["send", "--catalog", "-c"]),
        (139, &["send", "--catalog", "+c"]),
        (140, &["send", "--catalog", ""]),
        // An option twice, also with one value.
        (141, &["replay", "--most", "1", "--most", "1"]),
        (142, &["replay", "--most", "1", "--tsi", "1", "--most", "2"]),
        (143, &["send", "--catalog", "c", "--catalog", "c"]),
        (144, &["send", "--catalog=c"]),
        (
            145,
            &[
                "recv", "--addr", "1.1.1.1", "--addr", "1.1.1.1", "--port", "1", "--count", "1",
            ],
        ),
        (
            146,
            &["recv", "--addr=1.1.1.1", "--port", "1", "--count", "1"],
        ),
        (
            147,
            &[
                "replay", "--most", "1", "--most", "1", "--most", "1", "--most", "1",
            ],
        ),
        // Numbers.
        (148, &["replay", "--most", "0"]),
        (149, &["replay", "--most", "1a"]),
        (150, &["replay", "--most", "0x1"]),
        (151, &["replay", "--most", "1.0"]),
        (152, &["replay", "--most", "\u{661}"]),
        (153, &["replay", "--most", "000000000000000000001"]),
        (154, &["drill", "--start", "18446744073709551616"]),
        (155, &["drill", "--start", "99999999999999999999"]),
        // Options of other commands.
        (156, &["replay", "--count", "1"]),
        (157, &["replay", "--readers", "1"]),
        (158, &["dump", "--tsi", "1"]),
        (159, &["dump", "--budget", "4096"]),
        (160, &["recv", "--most", "1"]),
        (161, &["drill", "--most", "1", "--start", "1"]),
        (162, &["send", "--catalog", "c", "--most", "1"]),
        (163, &["send", "--catalog", "c", "--count", "1"]),
        (164, &["send", "--catalog", "c", "--budget", "4096"]),
        (165, &["listen", "--symbol", "8"]),
        (
            166,
            &["replay", "--addr", "1.1.1.1", "--port", "1", "--count", "1"],
        ),
        (
            167,
            &[
                "recv",
                "--addr",
                "1.1.1.1",
                "--port",
                "1",
                "--count",
                "1",
                "--readers",
                "1",
            ],
        ),
        // What is needed, and what comes together.
        (168, &["send"]),
        (169, &["drill"]),
        (170, &["recv"]),
        (171, &["recv", "--addr", "1.1.1.1", "--port", "1"]),
        (172, &["recv", "--addr", "1.1.1.1", "--count", "1"]),
        (173, &["recv", "--port", "1", "--count", "1"]),
        (174, &["send", "--catalog", "c", "--addr", "1.1.1.1"]),
        (175, &["send", "--catalog", "c", "--port", "1"]),
        (176, &["send", "--addr", "1.1.1.1", "--port", "1"]),
        (177, &["listen", "--addr", "1.1.1.1"]),
        (178, &["listen", "--port", "1"]),
        (179, &["listen", "--count", "1"]),
        (180, &["listen", "--addr", "1.1.1.1", "--port", "1"]),
        (181, &["listen", "--addr", "1.1.1.1", "--count", "1"]),
        (182, &["listen", "--port", "1", "--count", "1"]),
        (
            183,
            &[
                "listen", "--addr", "1.1.1.1", "--port", "1", "--count", "1", "--most", "0",
            ],
        ),
    ];
    for (row, words) in cases {
        check_usage(&rt, rt.alloc(), &words_of(rt.alloc(), words)?, row);
    }
    Ok(())
}

/// The words of a line with this address.
fn line_with(alloc: Global, address: &str) -> Result<Vec<Label>, AllocError> {
    let mut words = words_of(alloc, &["recv", "--port", "1", "--count", "1", "--addr"])?;
    add(&mut words, address)?;
    Ok(words)
}

#[test]
fn addresses(rt: HostRuntime) -> Result<(), Fail> {
    let taken = [
        (300, "0.0.0.0", [0, 0, 0, 0]),
        (301, "255.255.255.255", [255, 255, 255, 255]),
        (302, "001.020.3.099", [1, 20, 3, 99]),
    ];
    for (row, address, addr) in taken {
        let wanted = Told {
            kind: Kind::Recv,
            addr: Some(addr),
            numbers: six(&[Some(1), Some(67108864), Some(1), Some(1)]),
        };
        let words = line_with(rt.alloc(), address)?;
        check_told(&rt, rt.alloc(), &words, wanted, "", row)?;
    }
    let refused = [
        (310, "1"),
        (311, "1.2"),
        (312, "1.2.3"),
        (313, "1.2.3.4.5"),
        (314, "1.2.3.4."),
        (315, ".1.2.3.4"),
        (316, "1..2.3"),
        (317, "1.2.3."),
        (318, "256.1.1.1"),
        (319, "1.256.1.1"),
        (320, "1.1.256.1"),
        (321, "1.1.1.256"),
        (322, "0001.1.1.1"),
        (323, "1.1.1.0001"),
        (324, "1.1.1.+1"),
        (325, "1.1.-1.1"),
        (326, "1.1.1.a"),
        (327, "1,1,1,1"),
        (328, "::1"),
        (329, "localhost"),
        (330, "1.1.1.1 "),
        (331, "1.1.1.1:1"),
    ];
    for (row, address) in refused {
        check_usage(&rt, rt.alloc(), &line_with(rt.alloc(), address)?, row);
    }
    Ok(())
}
