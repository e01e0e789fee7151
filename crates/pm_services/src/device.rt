//! A device's agent as a service: it reads the offers of the device's control and its parent's prices, and writes bids and setpoints.

ghost use Rattle.std.specs.Prelude.{◌≡◌, None};
ghost use Rattle.pm_services.specs.Limits.{device_reply_limit};
ghost use Rattle.pm_services.specs.DeviceAnswers.{AnswersDevice, IsDeviceStart};
ghost use Rattle.pm_services.specs.SettingUp.{SetsUpDevice};

use crate::open_device::OpenDevice;
use pm_base::MOST_STEPS;
use pm_frames::DeviceFrame;
use pm_io::Memory;
use pm_wire::Service;
use std::alloc::{AllocError, Global};
use std::marker::Model;

/// The most bytes of the answers to a frame: a setpoint, a bid, and what the agent keeps over a restart.
const REPLY_LIMIT: usize = 15 + (7 + 4 * MOST_STEPS) + (19 + 4 * MOST_STEPS);

/// The agent of a device that takes the frames of the device's control and of its parent.
///
/// Contracts see its own number at its parent, and the agent once there is a basis.
#[derive(Drop)]
pub struct DeviceService {
    alloc: Global,
    child: u16,
    device: Option<OpenDevice>,
}

impl Model for DeviceService {
    ghost use Rattle.pm_services.specs.DeviceAnswers.{DeviceServiceValue};

    ghost Value = { DeviceServiceValue };

    ghost use Rattle.pm_services.specs.DeviceServiceFields.{device_service_of};

    ghost view = { device_service_of };
}

impl DeviceService {
    /// The service of a device that is this child of its parent. It takes no memory.
    pub fn new(alloc: Global, child: u16) -> DeviceService
        ensures { result ≡ record { child = child; device = None } }
    {
        DeviceService {
            alloc,
            child,
            device: None,
        }
    }
}

impl Service<DeviceFrame> for DeviceService {
    ghost begins = { IsDeviceStart };

    ghost answers = { AnswersDevice };

    ghost most_answers = { device_reply_limit };

    ghost sets_up = { SetsUpDevice };

    fn answer<M: Memory>(
        &mut self,
        memory: &mut M,
        frame: &DeviceFrame,
        out: &mut Vec<u8>,
    ) -> Result<(), AllocError> {
        // The room comes first, so that want of memory changes nothing.
        memory.reserve(out, REPLY_LIMIT)?;
        if let Some(device) = &mut self.device {
            return device.take(self.alloc, memory, self.child, frame, out);
        }
        if let DeviceFrame::Hello { basis } = frame {
            self.device = Some(OpenDevice::new(self.alloc, basis)?);
        }
        Ok(())
    }
}
