//! Metadata fields: names and values, texts of them, and the faults of texts.

use super::same::same;
use meta_text::{Field, FieldFault, Fields, Label, is_name, is_value};
use std::process::Abort;
use std::test::Fail;

#[test]
fn names_and_values(rt: HostRuntime) {
    let cases = [
        (1, "a", true, true),
        (2, "", false, true),
        (3, "!#$%&'*+-.^_`|~09AZaz", true, true),
        (4, "a b", false, true),
        (5, "a\tb", false, true),
        (6, "a:b", false, true),
        (7, " a", false, false),
        (8, "a\t", false, false),
        (9, "a\u{7F}", false, false),
        (10, "a\u{1F}", false, false),
        (11, "\u{E9}", false, true),
        (12, "\u{A0}a\u{A0}", false, true),
    ];
    for (row, text, name, value) in cases {
        same(&rt, &is_name(text), &name, row);
        same(&rt, &is_value(text), &value, row);
    }
}

/// Asserts the pairs of fields.
fn check_pairs(rt: &impl Abort, fields: &Fields, pairs: &[(&str, &str)], row: u32) {
    same(rt, &fields.len(), &pairs.len(), row);
    for i in 0..fields.len() {
        same(rt, &Some(&fields.pair(i)), &pairs.get(i), row);
    }
}

#[test]
fn texts_that_are_read(rt: HostRuntime) -> Result<(), Fail> {
    let cases: [(u32, &[u8], &[(&str, &str)]); 10] = [
        (21, b"", &[]),
        (22, b"a: b\r\n", &[("a", "b")]),
        (23, b"a: b\nc: d\n", &[("a", "b"), ("c", "d")]),
        (24, b"a: b", &[("a", "b")]),
        (25, b"a: b\r", &[("a", "b")]),
        (26, b"\n\r\na:b\n\n", &[("a", "b")]),
        (27, b"a:\t b\tc \t\n", &[("a", "b\tc")]),
        (28, b"a: b:c\n", &[("a", "b:c")]),
        (29, b"a:\n", &[("a", "")]),
        (30, b"a: \xC2\xA0b\xC2\xA0\n", &[("a", "\u{A0}b\u{A0}")]),
    ];
    for (row, text, pairs) in cases {
        check_pairs(&rt, &Fields::read(rt.alloc(), text)?, pairs, row);
    }
    Ok(())
}

#[test]
fn faults_with_their_lines(rt: HostRuntime) {
    let cases: [(u32, &[u8], FieldFault); 10] = [
        (41, b"a", FieldFault::NoColon { line: 1 }),
        (42, b"\n\r\n\na b\n", FieldFault::NoColon { line: 4 }),
        (43, b"a: b\n: c\n", FieldFault::BadName { line: 2 }),
        (44, b"a : b\n", FieldFault::BadName { line: 1 }),
        (45, b"\xC3\xA9: b\n", FieldFault::BadName { line: 1 }),
        (46, b"a: \x7F\n", FieldFault::BadValue { line: 1 }),
        (47, b"a: b\r\r\n", FieldFault::BadValue { line: 1 }),
        (48, b"\na: \xFF\n", FieldFault::BadValue { line: 2 }),
        (49, b"a b: \x00\n", FieldFault::BadName { line: 1 }),
        (50, b"a: b\nc\n: d\n", FieldFault::NoColon { line: 2 }),
    ];
    for (row, text, fault) in cases {
        same(
            &rt,
            &Fields::read(rt.alloc(), text).err(),
            &Some(fault),
            row,
        );
    }
}

#[test]
fn fields_by_name(rt: HostRuntime) -> Result<(), Fail> {
    let fields = Fields::read(rt.alloc(), b"One: 1\nTwo: 2\ntWO: 3\n")?;
    same(&rt, &fields.get("ONE"), &Field::Once("1"), 61);
    same(&rt, &fields.get("two"), &Field::Twice, 62);
    same(&rt, &fields.get("three"), &Field::Absent, 63);
    let fields = Fields::read(rt.alloc(), b"Type:\n")?;
    same(&rt, &fields.get("type"), &Field::Once(""), 64);
    Ok(())
}

#[test]
fn fields_that_are_written(rt: HostRuntime) -> Result<(), Fail> {
    let mut fields = Fields::new(rt.alloc());
    for (name, value) in [("Content-Location", "a"), ("Content-Length", "2")] {
        if is_name(name) && is_value(value) {
            fields.push(name, value)?;
        }
    }
    let text = fields.write()?;
    let wanted = b"Content-Location: a\r\nContent-Length: 2\r\n".as_slice();
    same(&rt, &text.as_slice(), &wanted, 71);
    let label = Label::new(String::from_str(rt.alloc(), "a name")?);
    same(&rt, &label.copy()?.as_str(), &"a name", 72);
    same(&rt, &label.into_string().as_str(), &"a name", 73);
    Ok(())
}
