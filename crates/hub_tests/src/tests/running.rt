//! Readers in threads.
ghost use Rattle.std.specs.Prelude.{◌≡◌, []};

use super::hubs::{is_whole, publish_below};
use super::same::same;
use carousel_cid::Instance;
use snapshot_hub::{Hub, Look, Naming, Publisher, make};
use std::alloc::Global;
use std::marker::Brand;
use std::process::Abort;
use std::sync::atomic::{AtomicBool, Ordering};
use std::sync::{Arc, Wait};
use std::test::Fail;
use std::thread::{JoinHandle, Threads, spawn};

/// What a reader found: the last number, and whether all that it was shown was whole and no number fell.
#[derive(Drop)]
struct Found {
    last: Option<u32>,
    sound: bool,
}

impl Found {
    fn take(&mut self, shown: Option<&Instance>) {
        let number = shown.map(|instance| instance.number);
        self.sound = self.sound && number >= self.last && shown.is_none_or(is_whole);
        self.last = number;
    }
}

/// Looks until it is told to stop, and then once more.
fn read_on<H: Naming, R: Wait>(rt: &R, mut look: Look<H>, stop: &AtomicBool) -> Found {
    let mut found = Found {
        last: None,
        sound: true,
    };
    for _ in rt.forever() {
        let stopped = stop.load(Ordering::SeqCst);
        let glance = look.look();
        found.take(glance.instance());
        look = glance.leave();
        if stopped {
            break;
        }
    }
    found
}

fn start<H: Naming + Send + Sync + 'static, R: Threads + Wait + Copy + Send + 'static>(
    rt: &R,
    look: Look<H>,
    stop: &Arc<AtomicBool>,
) -> Result<JoinHandle<Found>, Fail> {
    let stop = Arc::try_clone(stop)?;
    let held = *rt;
    match spawn(rt, move || read_on(&held, look, &stop)) {
        Ok(handle) => Ok(handle),
        Err(_) => Err("a thread".into()),
    }
}

/// Two readers in threads, and the flag that tells them to stop.
fn start_two<H: Naming + Send + Sync + 'static, R: Threads + Wait + Copy + Send + 'static>(
    rt: &R,
    alloc: Global,
    mut looks: Vec<Look<H>>,
) -> Result<(Arc<AtomicBool>, JoinHandle<Found>, JoinHandle<Found>), Fail> {
    let stop = Arc::new(alloc, AtomicBool::new(false))?;
    let one = start(rt, looks.pop().ok_or("two readers")?, &stop)?;
    let other = start(rt, looks.pop().ok_or("two readers")?, &stop)?;
    Ok((stop, one, other))
}

/// What each reader found, once all were told to stop.
fn stopped<R: Threads + Wait>(
    rt: &R,
    stop: &AtomicBool,
    one: JoinHandle<Found>,
    other: JoinHandle<Found>,
) -> [Found; 2] {
    stop.store(true, Ordering::SeqCst);
    [one.join(rt), other.join(rt)]
}

#[test]
fn readers_beside_a_publisher(rt: HostRuntime) -> Result<(), Fail> {
    read_beside::<Brand, _>(&rt, rt.alloc(), Hub::new(rt.alloc(), 2))
}

fn read_beside<
    H: Naming + Send + Sync + 'static,
    R: Threads + Wait + Abort + Copy + Send + 'static,
>(rt: &R, alloc: Global, hub: Hub) -> Result<(), Fail>
    requires { hub.book ≡ H.book }
{
    let (mut publisher, looks) = make::<R, H>(rt, hub)?;
    let outcome = publish_beside(rt, alloc, &mut publisher, looks);
    publisher.end(rt);
    for found in outcome? {
        same(rt, &found.sound, &true, 1);
        same(rt, &found.last, &Some(9_999), 2);
    }
    Ok(())
}

fn publish_beside<H: Naming + Send + Sync + 'static, R: Threads + Wait + Copy + Send + 'static>(
    rt: &R,
    alloc: Global,
    publisher: &mut Publisher<H>,
    looks: Vec<Look<H>>,
) -> Result<[Found; 2], Fail>
    requires { publisher.old ≡ [] }
{
    let (stop, one, other) = start_two(rt, alloc, looks)?;
    let outcome = publish_below(rt, alloc, publisher, 10_000);
    let found = stopped(rt, &stop, one, other);
    outcome?;
    Ok(found)
}

#[test]
fn ends_while_readers_look(rt: HostRuntime) -> Result<(), Fail> {
    end_beside::<Brand, _>(&rt, rt.alloc(), Hub::new(rt.alloc(), 2))
}

fn end_beside<H: Naming + Send + Sync + 'static, R: Threads + Wait + Abort + Copy + Send + 'static>(
    rt: &R,
    alloc: Global,
    hub: Hub,
) -> Result<(), Fail>
    requires { hub.book ≡ H.book }
{
    let (publisher, looks) = make::<R, H>(rt, hub)?;
    for found in publish_and_end(rt, alloc, publisher, looks)? {
        same(rt, &found.sound, &true, 3);
    }
    Ok(())
}

fn publish_and_end<H: Naming + Send + Sync + 'static, R: Threads + Wait + Copy + Send + 'static>(
    rt: &R,
    alloc: Global,
    mut publisher: Publisher<H>,
    looks: Vec<Look<H>>,
) -> Result<[Found; 2], Fail>
    requires { publisher ≡ [] }
{
    let (stop, one, other) = match start_two(rt, alloc, looks) {
        Ok(started) => started,
        Err(error) => {
            publisher.end(rt);
            return Err(error);
        }
    };
    let outcome = publish_below(rt, alloc, &mut publisher, 1_000);
    publisher.end(rt);
    let found = stopped(rt, &stop, one, other);
    outcome?;
    Ok(found)
}
