//! One thread that publishes and looks in turn.
ghost use Rattle.std.specs.Prelude.{◌≡◌, []};

use super::hubs::{is_whole, publish, publish_below, seen};
use super::same::same;
use snapshot_hub::{Hub, Look, Naming, Publisher, Told, make};
use std::alloc::Global;
use std::marker::Brand;
use std::process::Abort;
use std::sync::Wait;
use std::test::Fail;

#[test]
fn looks_in_turn(rt: HostRuntime) -> Result<(), Fail> {
    with_one_reader::<Brand, _>(&rt, rt.alloc(), Hub::new(rt.alloc(), 1))
}

fn with_one_reader<H: Naming, R: Wait + Abort>(rt: &R, alloc: Global, hub: Hub) -> Result<(), Fail>
    requires { hub.book ≡ H.book }
{
    let (mut publisher, mut looks) = make::<R, H>(rt, hub)?;
    let look = looks.pop();
    same(rt, &looks.is_empty(), &true, 1);
    let outcome = look_in_turn(rt, alloc, &mut publisher, look);
    publisher.end(rt);
    outcome
}

fn look_in_turn<H: Naming, R: Wait + Abort>(
    rt: &R,
    alloc: Global,
    publisher: &mut Publisher<H>,
    look: Option<Look<H>>,
) -> Result<(), Fail>
    requires { publisher.old ≡ [] }
{
    let (look, number) = seen(look.ok_or("one reader")?);
    same(rt, &number, &None, 2);
    publish(rt, alloc, publisher, 4)?;
    let glance = look.look();
    publish(rt, alloc, publisher, 4)?;
    publish(rt, alloc, publisher, 9)?;
    let number = glance.instance().map(|instance| instance.number);
    same(rt, &number, &Some(4), 3);
    same(rt, &glance.instance().is_some_and(is_whole), &true, 4);
    let (look, number) = seen(glance.leave());
    same(rt, &number, &Some(9), 5);
    same(rt, &publisher.has_published(&look), &true, 6);
    Ok(())
}

#[test]
fn told_what_it_can_not_enter(rt: HostRuntime) -> Result<(), Fail> {
    tell_and_end::<Brand, _>(&rt, rt.alloc(), Hub::new(rt.alloc(), 1))
}

fn tell_and_end<H: Naming, R: Wait + Abort>(rt: &R, alloc: Global, hub: Hub) -> Result<(), Fail>
    requires { hub.book ≡ H.book }
{
    let (mut publisher, mut looks) = make::<R, H>(rt, hub)?;
    let told = tell_two(rt, alloc, &mut publisher);
    publisher.end(rt);
    let (older, newer) = told?;
    let (look, number) = seen(looks.pop().ok_or("one reader")?);
    same(rt, &number, &None, 10);
    let (look, number) = seen(look.learn(newer));
    same(rt, &number, &Some(7), 11);
    let (_look, number) = seen(look.learn(older));
    same(rt, &number, &Some(7), 12);
    Ok(())
}

/// What is told after one instance, and after two.
fn tell_two<H: Naming, R: Wait>(
    rt: &R,
    alloc: Global,
    publisher: &mut Publisher<H>,
) -> Result<(Told<H>, Told<H>), Fail>
    requires { publisher.old ≡ [] }
{
    publish(rt, alloc, publisher, 5)?;
    let older = publisher.tell()?;
    publish(rt, alloc, publisher, 7)?;
    Ok((older, publisher.tell()?))
}

#[test]
fn one_never_looks(rt: HostRuntime) -> Result<(), Fail> {
    with_one_that_never_looks::<Brand, _>(&rt, rt.alloc(), Hub::new(rt.alloc(), 2))
}

fn with_one_that_never_looks<H: Naming, R: Wait + Abort>(
    rt: &R,
    alloc: Global,
    hub: Hub,
) -> Result<(), Fail>
    requires { hub.book ≡ H.book }
{
    let (mut publisher, mut looks) = make::<R, H>(rt, hub)?;
    let outcome = publish_below(rt, alloc, &mut publisher, 100);
    let number = looks.pop().and_then(|look| seen(look).1);
    publisher.end(rt);
    same(rt, &number, &Some(99), 20);
    outcome
}
