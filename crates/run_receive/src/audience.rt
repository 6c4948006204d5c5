//! Who looks on while a receiver takes its datagrams.
ghost use Rattle.std.specs.Prelude.{◌≡◌, ◌++◌, ◌∷◌, ◌-◌, ◌<◌, ◌^◌, [], Some, length, OnOk, OnErr, option_map};
ghost use Rattle.carousel_cid.specs.Instances.{Shown};
ghost use Rattle.snapshot_hub.specs.Histories.{MayFollow};
ghost use Rattle.run_receive.specs.Showings.{with_option, when_another};

use carousel_cid::Instance;
use std::alloc::AllocError;

/// Sees each instance that a receiver installs while it takes its datagrams.
pub trait Audience {
    ghost use Rattle.std.specs.Prelude.{List};
    ghost use Rattle.carousel_cid.specs.Instances.{Shown};

    /// It is told what audiences of this type were shown.
    ghost told: { Type 0 };

    /// What it was shown, in order, where that is told.
    ghost shown: { Self → List Shown };

    /// Shows the instance that is installed now. An error says that there was no memory, and then it isn't shown.
    fn show(&mut self, instance: &Instance) -> Result<(), AllocError>
        requires follows { told → MayFollow (shown self.old) instance.now }
        requires room { told → length (shown self.old) < 2 ^ 32 - 1 }
        ensures ok { OnOk result (told → shown self.new ≡ shown self.old ++ instance.now ∷ []) }
        ensures err { OnErr result (told → shown self.new ≡ shown self.old) };

    /// No further datagram will be taken.
    fn close(&mut self)
        ensures { told → shown self.new ≡ shown self.old };
}

/// Nobody looks on.
#[derive(Drop)]
pub struct Nobody;

impl Audience for Nobody {
    ghost use Rattle.std.specs.Prelude.{[]};

    ghost told = { ⊥ };

    ghost shown = { λ _. [] };

    fn show(&mut self, _instance: &Instance) -> Result<(), AllocError> {
        Ok(())
    }

    fn close(&mut self) {}
}

/// Shows the audience the instance that is installed, where it is another one.
pub fn show_installed<A: Audience>(
    audience: &mut A,
    another: Option<u32>,
    installed: Option<&Instance>,
) -> Result<(), AllocError>
    requires follows { A.told → (i : Shown) → when_another another (option_map (λ i. i.now) installed) ≡ Some i → MayFollow (A.shown audience.old) i }
    requires room { A.told → length (A.shown audience.old) < 2 ^ 32 - 1 }
    ensures ok { OnOk result (A.told → A.shown audience.new ≡ with_option (A.shown audience.old) (when_another another (option_map (λ i. i.now) installed.entry))) }
{
    match (another, installed) {
        (Some(_), Some(instance)) => audience.show(instance),
        _ => Ok(()),
    }
}
