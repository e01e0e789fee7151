//! What a plan keeps of each node: a device's kind, start and changes, or a concentrator's limits.

ghost use Rattle.std.specs.Prelude.{◌≡◌, [], OnOk, OnErr, true};
ghost use Rattle.pm_plan.specs.Devices.{is_member_after};
ghost use Rattle.pm_plan.specs.Plans.{is_device, limits_of, changes_of};
ghost use Rattle.pm_plan.specs.Building.{with_change, map_device, device_after_tick};

use crate::planned::{Change, Planned};
use pm_base::Limits;
use pm_device::{DeviceState, Kind};
use std::alloc::{AllocError, Global};
use std::marker::Model;

/// What is planned for a node.
#[derive(Drop)]
pub(crate) enum Node {
    /// A concentrator, for which nothing is planned.
    Concentrator,
    /// A concentrator that bounds what its part of the cluster announces.
    Limited(Limits),
    /// A device.
    Device(Device),
}

/// What is planned for a device: its kind, the state that it has before its first change, and its changes.
#[derive(Drop)]
pub(crate) struct Device {
    kind: Kind,
    start: DeviceState,
    changes: Vec<Change>,
    /// Whether the device is a member after all its changes.
    member: bool,
}

impl Model for Device {
    ghost use Rattle.std.specs.Prelude.{◌≡◌};
    ghost use Rattle.pm_plan.specs.Devices.{DeviceData, is_member_after};

    ghost Value = { DeviceData };

    ghost view = { λ d. record { kind = d.kind; start = d.start.0; changes = d.changes.items } };

    ghost invariant = { λ d. d.member ≡ is_member_after d.changes.items };
}

impl Device {
    /// A device without changes.
    pub(crate) fn new(alloc: Global, kind: Kind, start: DeviceState) -> Device
        ensures { result ≡ record { kind = kind; start = start.0; changes = [] } }
    {
        Device {
            kind,
            start,
            changes: Vec::new(alloc),
            member: false,
        }
    }

    /// Plans one more change, of this phase.
    fn plan(&mut self, phase: u32, what: Planned) -> Result<(), AllocError>
        ensures ok { OnOk result (self.new ≡ with_change phase what self.old) }
        ensures err { OnErr result (self.new ≡ self.old) }
    {
        self.changes.push(Change { phase, what })?;
        match what {
            Planned::Join => self.member = true,
            Planned::Leave => self.member = false,
            Planned::Set { .. } | Planned::Tick { .. } => {}
        }
        Ok(())
    }

    /// Plans a tick of so many minutes, if the device is a member whose state changes by itself.
    fn tick(&mut self, phase: u32, minutes: i64) -> Result<(), AllocError>
        ensures { OnOk result (self.new ≡ device_after_tick phase minutes self.old) }
    {
        if self.kind.ticks() && self.member {
            self.plan(phase, Planned::Tick { minutes })?;
        }
        Ok(())
    }

    /// Whether the device is a member after all its changes.
    fn is_member(&self) -> bool
        ensures { result ≡ is_member_after self.now.changes }
    {
        self.member
    }

    /// The kind.
    pub(crate) fn kind(&self) -> Kind
        ensures { result ≡ self.now.kind }
    {
        self.kind
    }

    /// The state before the first change.
    pub(crate) fn start(&self) -> DeviceState
        ensures { result.0 ≡ self.now.start }
    {
        self.start
    }

    /// The changes in their order.
    pub(crate) fn changes(&self) -> &[Change]
        ensures { result.now ≡ self.now.changes }
    {
        &self.changes
    }
}

impl Node {
    /// What is planned for a device.
    pub(crate) fn device(&self) -> &Device
        requires { is_device self.now ≡ true }
        ensures { self.now ≡ Node.Device result.now }
    {
        match self {
            Node::Device(device) => device,
            Node::Concentrator | Node::Limited(_) => unreachable!(),
        }
    }

    /// Plans one more change of this phase, if the node is a device.
    pub(crate) fn plan(&mut self, phase: u32, what: Planned) -> Result<(), AllocError>
        ensures ok { OnOk result (self.new ≡ map_device (with_change phase what) self.old) }
        ensures err { OnErr result (self.new ≡ self.old) }
    {
        match self {
            Node::Device(device) => device.plan(phase, what),
            Node::Concentrator | Node::Limited(_) => Ok(()),
        }
    }

    /// Plans a tick of so many minutes, if the node is a device that is a member and whose state changes by itself.
    pub(crate) fn tick(&mut self, phase: u32, minutes: i64) -> Result<(), AllocError>
        ensures { OnOk result (self.new ≡ map_device (device_after_tick phase minutes) self.old) }
    {
        match self {
            Node::Device(device) => device.tick(phase, minutes),
            Node::Concentrator | Node::Limited(_) => Ok(()),
        }
    }

    /// Whether the node is a device that is a member after all its changes.
    pub(crate) fn is_member(&self) -> bool
        ensures { result ≡ is_member_after (changes_of self.now) }
    {
        match self {
            Node::Device(device) => device.is_member(),
            Node::Concentrator | Node::Limited(_) => false,
        }
    }

    /// The limits of a limited concentrator; None exactly if the node is no limited one.
    pub(crate) fn limits(&self) -> Option<Limits>
        ensures { result ≡ limits_of self.now }
    {
        match self {
            Node::Limited(limits) => Some(*limits),
            Node::Concentrator | Node::Device(_) => None,
        }
    }

    /// The changes of a device in their order; no changes if the node is no device.
    pub(crate) fn changes(&self) -> &[Change]
        ensures { result.now ≡ changes_of self.now }
    {
        match self {
            Node::Device(device) => device.changes(),
            Node::Concentrator | Node::Limited(_) => &[],
        }
    }
}
