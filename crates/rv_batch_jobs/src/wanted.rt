//! What a call wants of its program.

use crate::call::CallError;
use serde_json::Value;

/// What a call wants.
#[derive(Clone, Copy, Drop)]
pub(crate) struct Wants {
    /// What the run has written.
    pub console: bool,
    /// How the run ended.
    pub end: bool,
    /// How many instructions the run executed.
    pub count: bool,
    /// The map of what the sources build.
    pub map: bool,
    /// All that is wrong with the sources.
    pub faults: bool,
}

impl Wants {
    /// Nothing.
    fn nothing() -> Wants {
        Wants {
            console: false,
            end: false,
            count: false,
            map: false,
            faults: false,
        }
    }

    /// What a call wants that says nothing of it.
    pub(crate) fn default_wants() -> Wants {
        Wants {
            console: true,
            end: true,
            ..Wants::nothing()
        }
    }

    /// What a list of names says.
    pub(crate) fn of(value: &Value) -> Result<Wants, CallError> {
        let mut wants = Wants::nothing();
        let Some(names) = value.as_array() else {
            return Err(CallError::NoList("want"));
        };
        for name in names {
            wants.add(name.as_str().unwrap_or(""))?;
        }
        Ok(wants)
    }

    /// Adds what a name says.
    fn add(&mut self, name: &str) -> Result<(), CallError> {
        match name {
            "console" => self.console = true,
            "end" => self.end = true,
            "count" => self.count = true,
            "map" => self.map = true,
            "faults" => self.faults = true,
            _ => return Err(CallError::UnknownWant),
        }
        Ok(())
    }

    /// Whether the program is run.
    pub(crate) fn runs(&self) -> bool {
        self.console || self.end || self.count
    }
}
