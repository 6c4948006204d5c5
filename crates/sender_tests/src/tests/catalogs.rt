//! Catalogs: what they list, and the first bad line.

use super::same::same;
use sender_plan::{CatalogFault, CatalogItem, read_catalog};
use std::alloc::{AllocError, Global};
use std::process::Abort;
use std::test::Fail;

/// The name of a file, its location and its type.
type Item<'a> = (&'a str, &'a str, Option<&'a str>);

fn parts(item: &CatalogItem) -> Item<'_> {
    let kind = match &item.kind {
        Some(kind) => Some(kind.as_str()),
        None => None,
    };
    (item.name.as_str(), item.location.as_str(), kind)
}

/// Asserts what a text lists: each instance by its number and how many files it has, and all files in order.
fn check_listed(
    rt: &impl Abort,
    alloc: Global,
    text: &[u8],
    instances: &[(u32, usize)],
    files: &[Item<'_>],
    row: u32,
) -> Result<(), Fail> {
    let catalog = read_catalog(alloc, text)?;
    let mut left = files.iter();
    same(rt, &catalog.as_slice().len(), &instances.len(), row);
    for (instance, wanted) in catalog.as_slice().iter().zip(instances) {
        same(rt, &(instance.number, instance.items.len()), wanted, row);
        for item in &instance.items {
            same(rt, &Some(&parts(item)), &left.next(), row);
        }
    }
    same(rt, &left.next().is_none(), &true, row);
    Ok(())
}

#[test]
fn instances_and_files(rt: HostRuntime) -> Result<(), Fail> {
    let cases: [(u32, &[u8], &[(u32, usize)], &[Item<'_>]); 8] = [
        (1, b"", &[], &[]),
        (2, b"instance\t1\n", &[(1, 0)], &[]),
        (
            3,
            b"instance\t1\nfile\tf\ta\n",
            &[(1, 1)],
            &[("f", "a", None)],
        ),
        (
            4,
            b"instance\t1\nfile\tf\ta\ttext/html\ninstance\t7\nfile\tg h\tb\nfile\tf\ta\n",
            &[(1, 1), (7, 2)],
            &[
                ("f", "a", Some("text/html")),
                ("g h", "b", None),
                ("f", "a", None),
            ],
        ),
        // Lines and their ends.
        (
            5,
            b"instance\t1\r\nfile\tf\ta\r\n",
            &[(1, 1)],
            &[("f", "a", None)],
        ),
        (
            6,
            b"instance\t1\nfile\tf\ta",
            &[(1, 1)],
            &[("f", "a", None)],
        ),
        (
            7,
            b"\n\r\n# two\ninstance\t1\n#file\tf\ta\n",
            &[(1, 0)],
            &[],
        ),
        (8, b"instance\t0004294967295\n", &[(4294967295, 0)], &[]),
    ];
    for (row, text, instances, files) in cases {
        check_listed(&rt, rt.alloc(), text, instances, files, row)?;
    }
    Ok(())
}

/// Asserts the first bad line of a text, with its cause.
fn check_refused(rt: &impl Abort, alloc: Global, text: &[u8], wanted: (u64, u8), row: u32) {
    let refused = match read_catalog(alloc, text) {
        Err(CatalogFault::Line { line, cause }) => Some((line, cause)),
        _ => None,
    };
    same(rt, &refused, &Some(wanted), row);
}

/// Each cause alone; then texts with spaces at their ends; then the lowest cause of the first bad line, which is counted
/// with those that are passed over.
#[test]
fn bad_lines(rt: HostRuntime) {
    let cases: [(u32, &[u8], (u64, u8)); 22] = [
        (20, b"instance\t\xFF\n", (1, 1)),
        (21, b"instance\t1\x01\n", (1, 1)),
        (22, b"instance\t1\nfile\tf\x7F\ta\n", (2, 1)),
        (23, b"instances\t1\n", (1, 2)),
        (24, b"instance\t1\t2\n", (1, 2)),
        (25, b"instance\t1\nfile\tf\n", (2, 2)),
        (26, b"instance\t1\nfile\tf\ta\tb\tc\n", (2, 2)),
        (27, b"instance\t4294967296\n", (1, 3)),
        (28, b"instance\t+1\n", (1, 3)),
        (29, b"file\tf\ta\n", (1, 4)),
        (30, b"instance\t1\nfile\t\ta\n", (2, 5)),
        (31, b"instance\t1\nfile\tf\t\n", (2, 5)),
        (32, b"instance\t1\nfile\tf\ta\t\n", (2, 5)),
        (33, b"instance\t1\nfile\t f\ta\n", (2, 5)),
        (34, b"instance\t1\nfile\tf\ta \n", (2, 5)),
        (35, b"instance\t1\nfile\tf\ta\t b\n", (2, 5)),
        (36, b"files\t\xFF\n", (1, 1)),
        (37, b"instance\tx\ty\n", (1, 2)),
        (38, b"file\t\ta\n", (1, 4)),
        (39, b"#\n\ninstance\tx\n", (3, 3)),
        (40, b"instance\t1\nfile\t\ta\nx\n", (2, 5)),
        (41, b"# \xFF\n\ninstance\t1 \n", (3, 3)),
    ];
    for (row, text, wanted) in cases {
        check_refused(&rt, rt.alloc(), text, wanted, row);
    }
}

/// A text with so many `instance` lines, numbered from 0.
fn numbered(alloc: Global, count: u32) -> Result<String, AllocError> {
    let mut text = String::new(alloc);
    for number in 0..count {
        text.push_str("instance\t")?;
        text.push_str(number.to_string(alloc)?.as_str())?;
        text.push_str("\n")?;
    }
    Ok(text)
}

#[test]
fn one_instance_too_many(rt: HostRuntime) -> Result<(), Fail> {
    let most = read_catalog(rt.alloc(), numbered(rt.alloc(), 256)?.as_bytes())?;
    same(&rt, &most.as_slice().len(), &256, 50);
    let more = numbered(rt.alloc(), 257)?;
    check_refused(&rt, rt.alloc(), more.as_bytes(), (257, 6), 51);
    Ok(())
}

#[test]
fn names_of_files(rt: HostRuntime) -> Result<(), Fail> {
    let text =
        b"instance\t1\nfile\tg\ta\nfile\tf\tb\ninstance\t2\nfile\tf\tc\nfile\th\ta\nfile\tg\ta\n";
    let names = read_catalog(rt.alloc(), text)?.names()?;
    same(&rt, &names.len(), &3, 60);
    for (row, name, wanted) in [
        (61, names.first(), "g"),
        (62, names.get(1), "f"),
        (63, names.get(2), "h"),
    ] {
        let name = name.ok_or("a name more")?;
        same(&rt, &name.as_str(), &wanted, row);
    }
    Ok(())
}
