//! The stage on which a listening shows the instances that it installs.
ghost use Rattle.std.specs.Prelude.{◌≡◌, [], map};

use carousel_cid::Instance;
use run_receive::Audience;
use snapshot_hub::{Naming, Publisher};
use std::alloc::{AllocError, Global};
use std::marker::Model;
use std::sync::atomic::{AtomicBool, Ordering};
use std::sync::{Arc, Wait};

/// Publishes each instance that it is shown, and notes its number. Contracts see it as what was published. The publisher
/// can't be dropped, and so the stage is taken apart at the end.
pub struct Stage<R, H: Naming> {
    rt: R,
    publisher: Publisher<H>,
    numbers: Vec<u32>,
    stop: Arc<AtomicBool, Global>,
}

impl<R, H: Naming> Model for Stage<R, H> {
    ghost use Rattle.std.specs.Prelude.{◌≡◌, List, map};
    ghost use Rattle.carousel_cid.specs.Instances.{Shown};

    ghost Value = { List Shown };

    ghost view = { λ s. s.publisher };

    ghost invariant = { λ s. s.numbers.items ≡ map (λ i. i.number) s.publisher };
}

impl<R: Copy, H: Naming> Stage<R, H> {
    /// A stage over this publisher, which has published nothing. It is closed by setting the flag.
    pub fn new(
        alloc: Global,
        rt: R,
        publisher: Publisher<H>,
        stop: Arc<AtomicBool, Global>,
    ) -> Stage<R, H>
        requires { publisher ≡ [] }
        ensures { result ≡ [] }
    {
        Stage {
            rt,
            publisher,
            numbers: Vec::new(alloc),
            stop,
        }
    }

    /// The publisher, and the numbers of what was published.
    pub fn into_parts(self) -> (Publisher<H>, Vec<u32>)
        ensures publisher { result.0 ≡ self }
        ensures numbers { result.1.items ≡ map (λ i. i.number) self }
    {
        let Stage {
            rt: _rt,
            publisher,
            numbers,
            stop: _stop,
        } = self;
        (publisher, numbers)
    }
}

impl<R: Wait, H: Naming> Audience for Stage<R, H> {
    ghost told = { Unit {0} };

    ghost shown = { λ s. s };

    fn show(&mut self, instance: &Instance) -> Result<(), AllocError> {
        self.numbers.push(instance.number)?;
        let published = self.publisher.publish_copy(&self.rt, instance);
        if published.is_err() {
            self.numbers.pop();
        }
        published
    }

    fn close(&mut self) {
        self.stop.store(true, Ordering::SeqCst);
    }
}
