//! Changes of a worked datagram: what is refused, and for which cause.

use super::packets::{Answer, EMPTY_INSTANCE_DATAGRAM, answer_to, changed};
use super::same::same;
use std::process::Abort;

/// A change of the datagram, how many of its bytes are left, and its code and detail.
type Refused = (&'static [(usize, u8)], usize, u8, u64);

/// The change, the bytes that are left, and the length of the symbol that is read.
type Taken = (&'static [(usize, u8)], usize, usize);

/// Asserts the refusals of these changes, whose rows are counted from `first`.
fn check_refused(rt: &impl Abort, first: u32, cases: &[Refused]) {
    let mut row = first;
    for (changes, length, code, detail) in cases {
        let bytes = changed(changes);
        let bytes = &bytes[..(*length).min(60)];
        same(rt, &answer_to(bytes), &Answer::Refused(*code, *detail), row);
        row = row.wrapping_add(1);
    }
}

/// Asserts that these changes are packets with symbols of these lengths; rows are counted from `first`.
fn check_taken(rt: &impl Abort, first: u32, cases: &[Taken]) {
    let mut row = first;
    for (changes, length, symbol) in cases {
        let bytes = changed(changes);
        let bytes = &bytes[..(*length).min(60)];
        same(rt, &answer_to(bytes), &Answer::Packet(*symbol), row);
        row = row.wrapping_add(1);
    }
}

#[test]
fn each_refusal_comes_for_its_cause(rt: HostRuntime) {
    check_refused(
        &rt,
        1,
        &[
            (&[], 3, 1, 0),
            (&[(0, 0x20)], 60, 2, 0),
            (&[(2, 3)], 60, 3, 0),
            (&[(2, 16)], 60, 3, 0),
            (&[(17, 0)], 60, 4, 16),
            (&[(17, 4)], 60, 5, 16),
            (&[(3, 6)], 60, 6, 6),
            // S = 1 and O = 0: the bytes of the TOI are an EXT_NOP.
            (&[(1, 0x80), (13, 1), (15, 0)], 60, 7, 0),
            (&[(16, 1)], 60, 8, 0),
            (&[(17, 2), (24, 0x40), (25, 1)], 60, 9, 0),
            (&[(17, 2), (24, 1), (25, 1)], 60, 10, 6),
            (&[(25, 0)], 60, 11, 0),
            (&[(26, 0)], 60, 12, 0),
            (&[(27, 0)], 60, 13, 0),
            (&[(23, 7)], 60, 14, 0),
            (&[(20, 1), (23, 1), (25, 1)], 60, 15, 0),
            (&[], 31, 16, 0),
            (&[(30, 1)], 60, 17, 1),
            (&[(28, 0xFF)], 60, 17, 0xFF_0000),
            (&[(31, 1)], 60, 18, 1),
            (&[], 59, 19, 27),
            (&[(23, 25), (58, 7)], 60, 20, 26),
        ],
    );
}

/// Two causes hold of each, which stand behind each other where both can hold.
#[test]
fn the_first_refusal_is_told(rt: HostRuntime) {
    check_refused(
        &rt,
        31,
        &[
            (&[(0, 0x20)], 3, 1, 0),
            (&[(0, 0x20), (2, 3)], 60, 2, 0),
            (&[(2, 16), (17, 0)], 60, 3, 0),
            (&[(17, 1), (20, 1), (21, 0), (24, 1), (25, 5)], 60, 4, 20),
            (&[(17, 1), (20, 1), (21, 9), (24, 1), (25, 0)], 60, 5, 20),
            (&[(17, 4), (3, 6)], 60, 5, 16),
            (&[(1, 0x80), (13, 1), (15, 0), (3, 6)], 60, 6, 6),
            (&[(1, 0x80), (13, 1), (15, 0), (16, 1)], 60, 7, 0),
            (&[(16, 1)], 31, 8, 0),
            (&[(17, 2), (24, 0x40), (25, 1)], 31, 9, 0),
            // A header of eight words with an EXT_FTI of four.
            (&[(2, 8), (17, 4), (25, 0)], 60, 10, 14),
            (&[(25, 0), (26, 0)], 60, 11, 0),
            (&[(26, 0), (23, 7)], 60, 12, 0),
            (&[(27, 0), (23, 7)], 60, 13, 0),
            (&[(23, 7)], 31, 14, 0),
            (&[(20, 1), (23, 1), (25, 1)], 31, 15, 0),
            (&[(30, 1)], 31, 16, 0),
            (&[(30, 1), (31, 1)], 60, 17, 1),
            (&[(31, 1)], 59, 18, 1),
            (&[(23, 25), (58, 7)], 59, 19, 27),
        ],
    );
}

#[test]
fn a_cut_datagram_is_refused_or_a_control(rt: HostRuntime) {
    for length in 0..61usize {
        let expected = match length {
            0..=3 => Answer::Refused(1, 0),
            4..=27 => Answer::Refused(3, 0),
            28 => Answer::Control,
            29..=31 => Answer::Refused(16, 0),
            32..=59 => Answer::Refused(19, (length as u64).saturating_sub(32)),
            _ => Answer::Packet(28),
        };
        let answer = answer_to(&EMPTY_INSTANCE_DATAGRAM[..length]);
        same(&rt, &answer, &expected, 100 + length as u32);
    }
}

#[test]
fn symbols_at_the_end_of_their_object_and_block(rt: HostRuntime) {
    let taken: [Taken; 11] = [
        // An object of 25 bytes in one symbol of 28: zero behind it, or cut there.
        (&[(23, 25)], 60, 28),
        (&[(23, 25)], 57, 25),
        // Of 50 bytes in two symbols: the first is whole, the second is whole or cut.
        (&[(23, 50), (26, 2), (27, 2)], 60, 28),
        (
            &[
                (23, 50),
                (26, 2),
                (27, 2),
                (31, 1),
                (54, 0),
                (55, 0),
                (56, 0),
            ],
            60,
            28,
        ),
        (&[(23, 50), (26, 2), (27, 2), (31, 1)], 54, 22),
        // Of 100 bytes in two blocks of two symbols.
        (&[(23, 100), (26, 2), (27, 2), (30, 1), (31, 1)], 48, 16),
        (&[(23, 100), (26, 2), (27, 2), (30, 1), (31, 0)], 60, 28),
        // Two repair symbols for one source symbol.
        (&[(27, 3), (31, 2)], 60, 28),
        (&[(23, 25), (27, 3), (31, 1), (59, 9)], 60, 28),
        // A block of 255 symbols of one byte, the first and the last.
        (&[(23, 255), (25, 1), (26, 255), (27, 255)], 33, 1),
        (
            &[(23, 255), (25, 1), (26, 255), (27, 255), (31, 254)],
            33,
            1,
        ),
    ];
    check_taken(&rt, 201, &taken);
    check_refused(
        &rt,
        221,
        &[
            // Bad bytes of the filling.
            (&[(23, 25), (57, 1)], 60, 20, 25),
            (&[(23, 25), (59, 1)], 60, 20, 27),
            (&[(23, 25), (58, 1), (59, 1)], 60, 20, 26),
            (&[(23, 50), (26, 2), (27, 2), (31, 1)], 60, 20, 22),
            // A symbol that isn't the last one is not cut, and the last one not elsewhere.
            (&[(23, 50), (26, 2), (27, 2)], 54, 19, 22),
            (&[(23, 50), (26, 2), (27, 2), (31, 1)], 55, 19, 23),
            (&[(23, 100), (26, 2), (27, 2), (31, 1)], 48, 19, 16),
            (&[(23, 25), (27, 3), (31, 1)], 57, 19, 25),
            // Blocks and symbols that aren't there.
            (&[(23, 100), (26, 2), (27, 2), (30, 2)], 60, 17, 2),
            (&[(27, 3), (31, 3)], 60, 18, 3),
            (
                &[(23, 255), (25, 1), (26, 255), (27, 255), (31, 255)],
                33,
                18,
                255,
            ),
        ],
    );
}
