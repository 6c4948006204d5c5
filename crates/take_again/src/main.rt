//! Has a receiver take the datagrams of a log, and prints what each comes to. What finds no memory is called a second
//! time. So the program prints the same where one call finds none.
#![tactic(auto)]

ghost use Rattle.std.specs.Prelude.{◌≡◌, IfOk, vec_len};

use carousel_cid::Instance;
use edge_io::{Datagrams, LogReader, Next, Place};
use edge_real::ReaderBytes;
use receiver_core::{Receiver, Taken};
use rs_solve::Steps;
use std::alloc::{AllocError, Global};
use std::io;
use std::io::{BufReader, Print};
use std::process::ExitCode;

/// The status for want of memory that no second call made good.
const NO_MEMORY: u8 = 9;

/// How many bytes of the log are read at once.
const PIECE: usize = 65_536;

/// The longest datagram.
const LONGEST: usize = 65_535;

/// The budget in bytes.
const BUDGET: u64 = 67_108_864;

fn main(rt: HostRuntime) -> ExitCode {
    match receive(rt) {
        Ok(()) => ExitCode::SUCCESS,
        Err(_) => ExitCode::from(NO_MEMORY),
    }
}

/// Takes the datagrams of standard input, and prints what each comes to and what is installed at the end.
fn receive(rt: HostRuntime) -> io::Result<()> {
    let alloc = rt.alloc();
    let input = BufReader::with_capacity(alloc, PIECE, rt.stdin())?;
    let mut log = LogReader::new(ReaderBytes::new(input));
    let mut buffer = zeros(alloc, LONGEST)?;
    let mut receiver = Receiver::start(alloc, 1, BUDGET)?;
    let mut steps = Steps::start(());
    let _connected = log.connect(&Place::Log);
    for _ in 0..u64::MAX {
        let Next::Got(size) = log.next(buffer.as_mut_slice()) else {
            break;
        };
        take_one(&rt, &mut receiver, &buffer[..size], &mut steps)?;
    }
    match receiver.installed() {
        Some(instance) => print_instance(&rt, instance),
        None => Ok(()),
    }
}

/// Takes a datagram, and prints what it comes to.
fn take_one(
    rt: &impl Print,
    receiver: &mut Receiver,
    datagram: &[u8],
    steps: &mut Steps<()>,
) -> io::Result<()> {
    let taken = take(receiver, datagram, steps)?;
    println!(rt; "{taken:?}")?;
    if let Some(number) = settle(receiver)? {
        println!(rt; "installed {number}")?;
    }
    Ok(())
}

/// So many zeros.
fn zeros(alloc: Global, size: usize) -> Result<Vec<u8>, AllocError>
    ensures { IfOk result (λ v. vec_len v ≡ size) }
{
    vec![in alloc; 0u8; size]
}

/// What the receiver makes of the datagram, of which it is told again where there is no memory.
fn take(
    receiver: &mut Receiver,
    datagram: &[u8],
    steps: &mut Steps<()>,
) -> Result<Taken, AllocError> {
    match receiver.take(datagram, steps) {
        Ok(taken) => Ok(taken),
        Err(AllocError) => receiver.take(datagram, steps),
    }
}

/// What a settling answers, which is done again where there is no memory.
fn settle(receiver: &mut Receiver) -> Result<Option<u32>, AllocError> {
    match receiver.settle() {
        Ok(number) => Ok(number),
        Err(AllocError) => receiver.settle(),
    }
}

/// Prints the instance's number and descriptor, and of each file the identifier, the length and the sum of its bytes.
fn print_instance(rt: &impl Print, instance: &Instance) -> io::Result<()> {
    let (number, descriptor) = (instance.number, instance.descriptor_toi);
    println!(rt; "instance {number} of {descriptor}")?;
    for file in instance.files.as_slice() {
        let body = file.body.as_slice();
        let sum = sum_of(body);
        println!(rt; "file {} of {} bytes, {sum}", file.toi, body.len())?;
    }
    Ok(())
}

/// The sum of each byte times its place, from 1 on.
fn sum_of(bytes: &[u8]) -> u64 {
    let mut sum = 0u64;
    for (byte, place) in bytes.iter().zip(1..=u64::MAX) {
        sum = sum.wrapping_add(u64::from(*byte).wrapping_mul(place));
    }
    sum
}
