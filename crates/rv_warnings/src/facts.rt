//! What is known of a source: its statements, what its names mean, and what goes to them.

use crate::effect::{Flow, flow_of, name_in, written_by};
use rv_expression::{Expr, SourceFault};
use rv_parse::parse_compact;
use rv_statement::{Setting, Statement, StatementKind, Statements};
use rv_unit::{Binding, Unit};
use std::alloc::{AllocError, Global};
use std::collections::{HashMap, HashSet};

/// What is known of a source.
#[derive(Drop)]
pub(crate) struct Facts<'a> {
    pub unit: Unit<'a>,
    names: Names<'a>,
}

/// What the statements of a source say of names.
#[derive(Drop)]
struct Names<'a> {
    /// The index of the statement that is the label of a name.
    labels: HashMap<&'a [u8], usize>,
    /// The numbers of names that have one.
    constants: HashMap<&'a [u8], u64>,
    /// The names that are called.
    called: HashSet<&'a [u8]>,
    /// The names that a branch or a jump goes to.
    jumped: HashSet<&'a [u8]>,
    /// Whether a statement writes a7.
    sets_number: bool,
}

impl<'a> Names<'a> {
    /// Those of a source's statements.
    fn of(
        alloc: Global,
        statements: &Statements<'a>,
        room: &mut Statement<'a>,
    ) -> Result<Names<'a>, AllocError> {
        let mut names = Names {
            labels: HashMap::new(alloc),
            constants: HashMap::new(alloc),
            called: HashSet::new(alloc),
            jumped: HashSet::new(alloc),
            sets_number: false,
        };
        for index in 0..statements.len() {
            names.put(index, &statements.read(index, room).kind)?;
        }
        Ok(names)
    }

    /// Adds what the statement at an index says.
    fn put(&mut self, index: usize, kind: &StatementKind<'a>) -> Result<(), AllocError> {
        match kind {
            StatementKind::Label(name) => {
                self.labels.insert(*name, index)?;
                Ok(())
            }
            StatementKind::Sets(setting) => put_constant(&mut self.constants, setting),
            _ => {
                let sets_number = written_by(kind).is_some_and(|rd| rd.number() == 17);
                self.sets_number = self.sets_number || sets_number;
                put_target(&mut self.called, &mut self.jumped, kind)
            }
        }
    }
}

impl<'a> Facts<'a> {
    /// Those of a source, whose statements are read into the room; none of one with a fault.
    pub(crate) fn of(
        alloc: Global,
        source: &'a [u8],
        room: &mut Statement<'a>,
    ) -> Result<Option<Facts<'a>>, AllocError> {
        let unit = match unit_of(alloc, source) {
            Ok(unit) => unit,
            Err(SourceFault::OutOfMemory) => return Err(AllocError),
            Err(SourceFault::At { .. }) => return Ok(None),
        };
        let names = Names::of(alloc, unit.statements(), room)?;
        Ok(Some(Facts { unit, names }))
    }

    /// Whether a statement writes a7, the number of a call.
    pub(crate) fn sets_number(&self) -> bool {
        self.names.sets_number
    }

    /// Whether a name is called in the source.
    pub(crate) fn is_called(&self, name: &[u8]) -> bool {
        self.names.called.contains(&name)
    }

    /// Whether a name is that of a function: it is called, or other sources can mean it; or it stands where no run comes
    /// from before, and nothing jumps to it.
    pub(crate) fn begins_function(&self, name: &[u8], is_cut_off: bool) -> bool {
        if self.is_called(name) || !matches!(self.unit.binding(name), Binding::Local) {
            return true;
        }
        is_cut_off && !name.starts_with(b".L") && !self.names.jumped.contains(&name)
    }

    /// Whether a run begins at a name, and no other way leads there.
    pub(crate) fn is_entry(&self, name: &[u8]) -> bool {
        name == b"_start".as_slice() && !self.is_called(name) && !self.names.jumped.contains(&name)
    }

    /// The index of the label of a name.
    pub(crate) fn label(&self, name: &[u8]) -> Option<usize> {
        self.names.labels.get(&name).copied()
    }

    /// The number that an expression is.
    pub(crate) fn number(&self, expression: &Expr<'a>) -> Option<u64> {
        match expression {
            Expr::Number(number) => Some(*number),
            Expr::Negative(number) => Some(number.wrapping_neg()),
            Expr::Name(name) => self.names.constants.get(name).copied(),
            _ => None,
        }
    }

    /// The section of a statement, by its number.
    pub(crate) fn section(&self, index: usize) -> Option<u32> {
        self.unit.places().get(index).map(|place| place.section)
    }

    /// Whether a section is loaded.
    pub(crate) fn is_loaded(&self, section: u32) -> bool {
        match self.unit.sections().get(section as usize) {
            Some(extent) => extent.section.loaded,
            None => true,
        }
    }

    /// Whether a section has code.
    pub(crate) fn is_code(&self, section: u32) -> bool {
        match self.unit.sections().get(section as usize) {
            Some(extent) => extent.section.executable,
            None => false,
        }
    }
}

/// The statements of a source and what they define.
fn unit_of<'a>(alloc: Global, source: &'a [u8]) -> Result<Unit<'a>, SourceFault> {
    let statements = parse_compact(alloc, source)?;
    Unit::of(alloc, statements)
}

/// Adds a name that is a number. One of several numbers is taken for none.
fn put_constant<'a>(
    constants: &mut HashMap<&'a [u8], u64>,
    setting: &Setting<'a>,
) -> Result<(), AllocError> {
    let number = match &setting.expression {
        Expr::Number(number) => *number,
        Expr::Negative(number) => number.wrapping_neg(),
        _ => return Ok(()),
    };
    constants.insert(setting.name, number)?;
    Ok(())
}

/// Adds the name to which an instruction goes.
fn put_target<'a>(
    called: &mut HashSet<&'a [u8]>,
    jumped: &mut HashSet<&'a [u8]>,
    kind: &StatementKind<'a>,
) -> Result<(), AllocError> {
    let Some(name) = name_in(kind) else {
        return Ok(());
    };
    match flow_of(kind) {
        Flow::Call => {
            called.insert(name)?;
        }
        Flow::Branch | Flow::Jump => {
            jumped.insert(name)?;
        }
        _ => {}
    }
    Ok(())
}
