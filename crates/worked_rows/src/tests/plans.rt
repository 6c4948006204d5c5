//! Catalogs that can't be planned.

ghost use Rattle.std.specs.Prelude.{None, ◌≤◌, IfOk, vec_len};

use super::same::same;
use edge_io::{FileFault, Files, MemEmit, MemText, SureDatagrams, SureFiles, SureShelf};
use fcast_run::{Edge, run};
use std::alloc::{AllocError, Global};
use std::process::Abort;
use std::test::Fail;
use worked_runs::playing::labels_of;
use worked_runs::sending::send;

/// The words that send a catalog.
const SEND: [&str; 3] = ["send", "--catalog", "c"];

/// The line of so many files of one name, behind these lines.
fn of_one_file(alloc: Global, front: &str, count: usize) -> Result<String, AllocError> {
    let mut text = String::from_str(alloc, front)?;
    for _file in 0..count {
        text.push_str("file\tf\ta\n")?;
    }
    Ok(text)
}

/// A send of a catalog with so many files in its second instance ends with this status and line, and sends nothing.
fn sends_nothing(
    rt: &impl Abort,
    alloc: Global,
    count: usize,
    wanted: (u8, &str),
    row: u32,
) -> Result<(), AllocError> {
    let catalog = of_one_file(alloc, "instance\t1\ninstance\t2\n", count)?;
    let sent = send(alloc, &SEND, &[("c", catalog.as_bytes())])?;
    let (status, line) = wanted;
    let text = sent.edge.text.written();
    same(rt, &(sent.status, text), &(status, line.as_bytes()), row);
    same(rt, &sent.edge.emit.calls.made, &0, row);
    Ok(())
}

#[test]
fn an_instance_of_too_many_files(rt: HostRuntime) -> Result<(), Fail> {
    let alloc = rt.alloc();
    let most = (10, "no such file: f\n");
    sends_nothing(&rt, alloc, 4_096, most, 1)?;
    let more = (8, "plan refused: cause 2 at 2\n");
    sends_nothing(&rt, alloc, 4_097, more, 2)?;
    Ok(())
}

/// The most bytes that a file has.
const FILE_SIZE: usize = 16_777_216;

/// A catalog, and the largest file under each other name.
#[derive(Drop)]
struct LargeFiles {
    alloc: Global,
    catalog: SureFiles,
    reads: u64,
}

impl Files for LargeFiles {
    ghost told = { λ _. ⊥ };

    ghost found = { λ _ _. None };

    ghost faults = { λ _. 0 };

    ghost misses = { λ s. s.catalog.misses };

    fn read(&mut self, name: &str) -> Result<Vec<u8>, FileFault> {
        self.reads = self.reads.saturating_add(1);
        if name == "c" {
            return self.catalog.read(name);
        }
        Ok(large_file(self.alloc, FILE_SIZE)?)
    }
}

/// So many zeros.
fn large_file(alloc: Global, size: usize) -> Result<Vec<u8>, AllocError>
    ensures { IfOk result (λ v. vec_len v ≤ size) }
{
    vec![in alloc; 0u8; size]
}

/// A catalog of so many files, each of its own name and location.
fn large_files(alloc: Global, count: u32) -> Result<LargeFiles, AllocError> {
    let mut text = Vec::from_slice(alloc, b"instance\t1\n")?;
    for place in 0..count {
        let line = format!(in alloc; "file\tf{place}\ta{place}\n")?;
        text.extend_from_slice(line.as_bytes())?;
    }
    let mut files = Vec::new(alloc);
    files.push((String::from_str(alloc, "c")?, text))?;
    Ok(LargeFiles {
        alloc,
        catalog: SureFiles::new(files),
        reads: 0,
    })
}

/// Seventeen files of the largest size are more than a session may have. The eighteenth isn't read.
#[test]
fn a_session_of_too_many_bytes(rt: HostRuntime) -> Result<(), Fail> {
    let alloc = rt.alloc();
    let words = labels_of(alloc, &SEND)?;
    let mut edge = Edge {
        datagrams: SureDatagrams::new(Vec::new(alloc), None),
        emit: MemEmit::new(Vec::new(alloc), Vec::new(alloc)),
        files: large_files(alloc, 18)?,
        shelf: SureShelf::new(alloc, None),
        text: MemText::new(Vec::new(alloc), Vec::new(alloc)),
    };
    let mut watchers = Vec::new(alloc);
    let status = run(alloc, words.as_slice(), &mut edge, &mut watchers);
    let line = b"plan refused: cause 3 at 285212672\n".as_slice();
    same(&rt, &(status, edge.text.written()), &(8, line), 3);
    same(&rt, &edge.files.reads, &18, 4);
    same(&rt, &edge.emit.calls.made, &0, 5);
    Ok(())
}
