//! A session as its sender plans it.

ghost use Rattle.std.specs.Prelude.{◌≡◌, ◌≤◌, ◌<◌, ◌^◌, Some, All};
ghost use Rattle.sender_plan.specs.Session as specs;
ghost use Rattle.sender_plan.specs.Session.{HasObject, IsSession, object_of};

use compound_object::Blob;
use oti_blocks::Oti;
use std::marker::Model;

/// An object to be sent.
#[derive(Drop)]
pub struct SentObject {
    /// Its identifier (TOI), counted from 1.
    pub toi: u128,
    /// Its transmission information.
    pub oti: Oti,
    /// Its bytes.
    pub bytes: Blob,
}

impl Model for SentObject {
    ghost use Rattle.sender_plan.specs.Session as specs;

    ghost Value = { specs.SentObject };

    ghost view = { λ a. record { toi = a.toi; oti = a.oti; bytes = a.bytes } };
}

/// An instance to be sent.
#[derive(Drop)]
pub struct SentInstance {
    /// Its number.
    pub number: u32,
    /// The object of its descriptor.
    pub descriptor_toi: u128,
    /// The objects that this lists, each once.
    pub listed: Vec<u128>,
}

impl Model for SentInstance {
    ghost use Rattle.sender_plan.specs.Session as specs;

    ghost Value = { specs.SentInstance };

    ghost view = { λ a. record { number = a.number; descriptor_toi = a.descriptor_toi; listed = a.listed.items } };
}

/// A session to be sent: the i-th object has the identifier i, its bytes are as long as its transmission information
/// says, its symbols have at most 65,475 bytes, and each instance's descriptor and listed objects are objects of the
/// session and differ.
#[derive(Drop)]
pub struct Session {
    tsi: u32,
    objects: Vec<SentObject>,
    instances: Vec<SentInstance>,
    cycles: u16,
}

impl Model for Session {
    ghost use Rattle.sender_plan.specs.Session as specs;

    ghost Value = { specs.Session };

    ghost view = { λ a. record { tsi = a.tsi; objects = a.objects.items; instances = a.instances.items; cycles = a.cycles } };

    ghost invariant = { λ a. specs.IsSession (record { tsi = a.tsi; objects = a.objects.items; instances = a.instances.items; cycles = a.cycles }) };
}

impl Session {
    /// A session of these parts.
    pub fn new(
        tsi: u32,
        objects: Vec<SentObject>,
        instances: Vec<SentInstance>,
        cycles: u16,
    ) -> Session
        requires { IsSession (record { tsi = tsi; objects = objects.items; instances = instances.items; cycles = cycles }) }
        ensures parts { result ≡ record { tsi = tsi; objects = objects.items; instances = instances.items; cycles = cycles } }
        ensures session { IsSession result }
    {
        Session {
            tsi,
            objects,
            instances,
            cycles,
        }
    }

    /// The session's identifier (TSI).
    pub fn tsi(&self) -> u32
        ensures { result ≡ self.now.tsi }
    {
        self.tsi
    }

    /// The object with this identifier.
    pub fn object(&self, toi: u128) -> &SentObject
        requires { HasObject self.now toi }
        ensures value { object_of self.now toi ≡ Some result.now }
        ensures session { IsSession self.now }
    {
        &self.objects[(toi - 1) as usize]
    }

    /// The instances in order.
    pub fn instances(&self) -> &[SentInstance]
        ensures instances { result.now ≡ self.now.instances }
        ensures session { IsSession self.now }
    {
        self.instances.as_slice()
    }

    /// How many times each instance is sent.
    pub fn cycles(&self) -> u16
        ensures cycles { result ≡ self.now.cycles }
        ensures some { 1 ≤ result }
    {
        self.cycles
    }
}
