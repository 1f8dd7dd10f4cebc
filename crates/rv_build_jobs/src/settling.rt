//! Values of names that only a link tells, for what the words define by them.
//!
//! A program is linked with the values of its last map until its map has the same, so what is built in the end is the program
//! of its sources and of these numbers, whatever the rounds before were.

use crate::additions::Inputs;
use crate::building::build_with_map;
use crate::defining::{Definitions, ROUNDS, unsettled};
use crate::files::{LinkFile, redefine};
use crate::refusing::{Linked, refused_link};
use crate::taking::{bytes_of, names_of, objects_of};
use rv_chain::link_objects_on;
use rv_job::LinkSettings;
use rv_system::{JobError, System};
use std::alloc::Global;

/// Reads sources, for debuggers or not; behind them comes what words define, by the values that names of the program have in it.
pub(crate) fn settled_inputs<'a, S: System>(
    system: &mut S,
    files: &'a [&'a str],
    words: &[&str],
    settings: LinkSettings,
    is_debug: bool,
) -> Result<Inputs<'a>, JobError> {
    let alloc: Global = system.alloc();
    let mut definitions = Definitions::of(alloc, words, settings.options)?;
    let mut inputs = Inputs::read(system, files, &definitions, settings.pads_ends, is_debug)?;
    if definitions.use_link() {
        settle_inputs(system, settings, &mut definitions, &mut inputs)?;
    }
    Ok(inputs)
}

/// Builds sources until the names that definitions use have the values of the program.
fn settle_inputs<S: System>(
    system: &S,
    settings: LinkSettings,
    definitions: &mut Definitions<'_>,
    inputs: &mut Inputs<'_>,
) -> Result<(), JobError> {
    let alloc: Global = system.alloc();
    for _ in 0..ROUNDS {
        let built = build_with_map(system, inputs, settings)?;
        if definitions.settle(alloc, built.map.as_slice())? {
            return Ok(());
        }
        inputs.redefine(definitions.source(alloc)?);
    }
    Err(unsettled(alloc)?)
}

/// Links files until the names that definitions use have the values of the program. The objects of these sources stand in front.
pub(crate) fn settle_files<S: System>(
    system: &S,
    settings: LinkSettings,
    sources: &[&[u8]],
    definitions: &mut Definitions<'_>,
    files: &mut [LinkFile],
) -> Result<(), JobError> {
    if !definitions.use_link() {
        return Ok(());
    }
    let alloc: Global = system.alloc();
    for _ in 0..ROUNDS {
        let map = map_of(system, settings, sources, files)?;
        if definitions.settle(alloc, map.as_slice())? {
            return Ok(());
        }
        redefine(alloc, files, definitions)?;
    }
    Err(unsettled(alloc)?)
}

/// The map of the program that files link to.
fn map_of<S: System>(
    system: &S,
    settings: LinkSettings,
    sources: &[&[u8]],
    files: &[LinkFile],
) -> Result<Vec<u8>, JobError> {
    let alloc: Global = system.alloc();
    let taken = objects_of(system, files, settings)?;
    let names = names_of(alloc, taken.as_slice())?;
    let objects = bytes_of(alloc, taken.as_slice())?;
    match link_objects_on(alloc, objects.as_slice(), settings.options) {
        Ok(built) => Ok(built.map),
        Err(fault) => {
            let linked = Linked {
                names: names.as_slice(),
                objects: objects.as_slice(),
                sources,
            };
            Err(refused_link(system, &fault, linked, settings)?)
        }
    }
}
