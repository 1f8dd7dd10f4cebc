//! The registers as the events of a run tell them.

ghost use Rattle.std.specs.Prelude.{◌≡◌, slice_index};
ghost use Rattle.rv_event_laws.specs.Changes.{with_set};
ghost use Rattle.rv_counts.specs.Counted.{start_registers};

use rv_event_laws::Setting;
use rv_isa::Reg;

/// The values of x0 to x31.
#[derive(Drop)]
pub(crate) struct ToldRegisters {
    values: [u64; 32],
}

impl ToldRegisters {
    /// Those before the first step.
    pub(crate) fn new() -> Self
        ensures { result.values ≡ start_registers }
    {
        let mut values = [0; 32];
        values[2] = 0x4000_0000;
        ToldRegisters { values }
    }

    /// The value of a register.
    #[inline]
    pub(crate) fn get(&self, register: Reg) -> u64
        ensures { result ≡ slice_index self.now.values register }
    {
        self.values[usize::from(register.number())]
    }

    /// With what an event has set.
    #[inline]
    pub(crate) fn set(&mut self, told: Option<Setting>)
        ensures { self.new.values ≡ with_set told self.old.values }
    {
        if let Some(setting) = told {
            self.values[usize::from(setting.register.number())] = setting.value;
        }
    }
}
