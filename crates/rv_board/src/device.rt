//! The devices of the board, by their addresses.

ghost use Rattle.std.specs.Prelude.{◌≡◌};
ghost use Rattle.rv_board_laws.specs.Device.{Serial};
ghost use Rattle.rv_board_laws.specs.Virt.{virt};
ghost use Rattle.rv_board.specs.Views.{device_of};

/// The data of the 16550.
pub(crate) const UART: u64 = 0x1000_0000;
/// The test device.
const TEST: u64 = 0x10_0000;

/// What stands at an address where memory gives no right.
#[derive(Clone, Copy, Drop)]
pub(crate) enum Device {
    Plain,
    Serial,
    /// A register that cannot be changed.
    Constant(u64),
    Power,
}

/// What stands at an address.
pub(crate) fn device_at(address: u64) -> Device
    ensures device { device_of result ≡ virt address }
    ensures serial { device_of result ≡ Serial → address ≡ 0x1000_0000 }
{
    match address {
        UART => Device::Serial,
        0x1000_0002 => Device::Constant(1),
        0x1000_0006 => Device::Constant(0xb0),
        TEST => Device::Power,
        _ => Device::Plain,
    }
}
