//! What may be a mistake in a source that has no fault.

use crate::names::{
    is_access, is_addition, is_assignment, is_direct_jump, is_globalizer, is_jump,
    is_jump_and_link, is_link, is_load_of_number, is_quiet, is_register_jump, is_section,
    is_silent, is_size, is_stack, is_store, is_zero, width_of,
};
use crate::tokens::{LineToken, Sort, is_end, is_label, text_of, unlabelled};
use std::alloc::{AllocError, Global};
use std::collections::{HashMap, HashSet};

/// The most warnings of a source that are shown.
const MOST_WARNINGS: usize = 20;

/// What may be wrong.
#[derive(Clone, Copy, Drop)]
pub(crate) enum Doubt {
    /// A label to which nothing in its source refers.
    UnusedLabel,
    /// An instruction after a jump that has no label.
    Unreachable,
    /// A load or a store at `sp` off a multiple of its width.
    Misaligned,
    /// A load or a store at x0, where no program has data.
    AtZero,
    /// A `li` of a number that is the address of a global name.
    HidesSymbol,
}

/// A warning: what may be wrong, and the token that shows it.
#[derive(Clone, Copy, Drop)]
pub(crate) struct Warning {
    pub doubt: Doubt,
    pub token: LineToken,
}

/// The warnings of a source with these tokens, whose program has these global names: of each kind from its first line to its last.
pub(crate) fn warnings_of(
    alloc: Global,
    source: &[u8],
    tokens: &[LineToken],
    symbols: &HashMap<u64, &[u8]>,
) -> Result<Vec<Warning>, AllocError> {
    let mut found = Vec::new(alloc);
    put_all(alloc, source, tokens, symbols, &mut found)?;
    Ok(found)
}

/// Adds the warnings of each kind.
fn put_all(
    alloc: Global,
    source: &[u8],
    tokens: &[LineToken],
    symbols: &HashMap<u64, &[u8]>,
    found: &mut Vec<Warning>,
) -> Result<(), AllocError> {
    put_unused(alloc, source, tokens, found)?;
    put_unreachable(source, tokens, found)?;
    put_doubtful_accesses(source, tokens, found)?;
    put_hiding(alloc, source, tokens, symbols, found)
}

/// Adds a warning, where there are not too many.
fn put(found: &mut Vec<Warning>, doubt: Doubt, token: LineToken) -> Result<(), AllocError> {
    if MOST_WARNINGS <= found.len() {
        return Ok(());
    }
    found.push(Warning { doubt, token })?;
    Ok(())
}

/// Adds the labels to which nothing refers, nor to another name of their place. A `.set` to a place, as compilers write
/// it, may reach all of the section after it.
fn put_unused(
    alloc: Global,
    source: &[u8],
    tokens: &[LineToken],
    found: &mut Vec<Warning>,
) -> Result<(), AllocError> {
    let used = used_names(alloc, source, tokens)?;
    put_labels_but(source, tokens, &used, found)
}

/// Adds the labels to which nothing refers where these names are used.
fn put_labels_but<'a>(
    source: &'a [u8],
    tokens: &[LineToken],
    used: &HashSet<&'a [u8]>,
    found: &mut Vec<Warning>,
) -> Result<(), AllocError> {
    let mut is_anchored = false;
    let mut is_reached = false;
    let mut count = found.len();
    for group in tokens.split(is_end) {
        let statement = unlabelled(group);
        put_unused_of(source, group, used, found)?;
        is_anchored = is_anchored || anchors(source, statement, used);
        is_reached = is_reached || is_anchored || has_used_label(source, group, used);
        if is_reached {
            found.truncate(count);
        }
        if moves(source, statement) {
            is_anchored = is_anchored && !opens(source, statement);
            is_reached = false;
            count = found.len();
        }
    }
    Ok(())
}

/// Adds the labels of a statement whose names are not among those that are used.
fn put_unused_of<'a>(
    source: &'a [u8],
    group: &[LineToken],
    used: &HashSet<&'a [u8]>,
    found: &mut Vec<Warning>,
) -> Result<(), AllocError> {
    let mut before: Option<LineToken> = None;
    for token in group {
        match before {
            Some(name) if is_label_and(source, &name, token, used, false) => {
                put(found, Doubt::UnusedLabel, name)?;
            }
            _ => {}
        }
        before = Some(*token);
    }
    Ok(())
}

/// Whether two tokens are a label whose name is among those that are used, or is not.
fn is_label_and<'a>(
    source: &'a [u8],
    name: &LineToken,
    next: &LineToken,
    used: &HashSet<&'a [u8]>,
    is_used: bool,
) -> bool {
    name.sort == Sort::Name
        && is_label(name, next)
        && used.contains(&text_of(source, name)) == is_used
}

/// Whether a label of a statement is used.
fn has_used_label<'a>(source: &'a [u8], group: &[LineToken], used: &HashSet<&'a [u8]>) -> bool {
    let mut before: Option<LineToken> = None;
    for token in group {
        match before {
            Some(name) if is_label_and(source, &name, token, used, true) => return true,
            _ => {}
        }
        before = Some(*token);
    }
    false
}

/// Whether a statement gives a name that is used the place where it stands.
fn anchors<'a>(source: &'a [u8], statement: &[LineToken], used: &HashSet<&'a [u8]>) -> bool {
    match statement {
        [set, name, _, value, ..] => text_of(source, value) == b".".as_slice()
            && is_assignment(text_of(source, set))
            && used.contains(&text_of(source, name)),
        _ => false,
    }
}

/// Whether a statement goes to a section.
fn opens(source: &[u8], statement: &[LineToken]) -> bool {
    match statement.first() {
        Some(mnemonic) => {
            let word = text_of(source, mnemonic);
            word.starts_with(b".") && is_section(word)
        }
        None => false,
    }
}

/// Whether what comes after a statement stands at another place.
fn moves(source: &[u8], statement: &[LineToken]) -> bool {
    match statement.first() {
        Some(mnemonic) => !is_quiet(text_of(source, mnemonic)),
        None => false,
    }
}

/// The names that a source refers to or makes global.
fn used_names<'a>(
    alloc: Global,
    source: &'a [u8],
    tokens: &[LineToken],
) -> Result<HashSet<&'a [u8]>, AllocError> {
    let mut used = HashSet::new(alloc);
    put_all_used(source, tokens, &mut used)?;
    Ok(used)
}

/// Adds the names that a source uses.
fn put_all_used<'a>(
    source: &'a [u8],
    tokens: &[LineToken],
    used: &mut HashSet<&'a [u8]>,
) -> Result<(), AllocError> {
    for group in tokens.split(is_end) {
        put_used(source, unlabelled(group), used)?;
    }
    Ok(())
}

/// Adds the names that a statement uses.
fn put_used<'a>(
    source: &'a [u8],
    statement: &[LineToken],
    used: &mut HashSet<&'a [u8]>,
) -> Result<(), AllocError> {
    let Some((mnemonic, operands)) = statement.split_first() else {
        return Ok(());
    };
    let word = text_of(source, mnemonic);
    let is_directive = word.starts_with(b".");
    if is_directive && is_silent(word) && !is_globalizer(word) && !is_size(word) {
        return Ok(());
    }
    // what a directive gives a size or a value is no reference to it
    let own: &[u8] = match operands.first() {
        Some(own) if is_directive && (is_size(word) || is_assignment(word)) => {
            text_of(source, own)
        }
        _ => b"",
    };
    for token in operands {
        if token.sort == Sort::Name && text_of(source, token) != own {
            used.insert(text_of(source, token))?;
        }
    }
    Ok(())
}

/// Adds the instructions that stand after a jump and have no label. A source that jumps by `. + 8`, or to an address in
/// a register, reaches what has none, and so does one that goes into a table of jumps.
fn put_unreachable(
    source: &[u8],
    tokens: &[LineToken],
    found: &mut Vec<Warning>,
) -> Result<(), AllocError> {
    if reaches_anything(source, tokens) {
        return Ok(());
    }
    let mut is_cut_off = false;
    let mut is_in_table = false;
    for group in tokens.split(is_end) {
        let step = step_of(source, group);
        is_cut_off = is_cut_off && !step.begins;
        is_in_table = is_in_table && !step.begins;
        if let Some(token) = step.instruction {
            let follows = is_cut_off;
            is_in_table = follows && (is_in_table || step.is_direct);
            if follows && !is_in_table {
                put(found, Doubt::Unreachable, token)?;
            }
            is_cut_off = step.jumps;
        }
    }
    Ok(())
}

/// Whether a source uses the place where it is, or jumps to an address in a register other than that of the return.
fn reaches_anything(source: &[u8], tokens: &[LineToken]) -> bool {
    for group in tokens.split(is_end) {
        if goes_anywhere(source, unlabelled(group)) {
            return true;
        }
    }
    false
}

/// Whether a statement goes to a place that it does not name.
fn goes_anywhere(source: &[u8], statement: &[LineToken]) -> bool {
    let Some((mnemonic, operands)) = statement.split_first() else {
        return false;
    };
    let word = text_of(source, mnemonic);
    if word.starts_with(b".") {
        return false;
    }
    let is_register_jump = matches!(word, [b'j' | b'c', ..]) && is_register_jump(word);
    if is_register_jump {
        return !operands.iter().any(|token| is_link(text_of(source, token)));
    }
    operands
        .iter()
        .any(|token| text_of(source, token) == b".".as_slice())
}

/// What a statement is to the flow of a program.
#[derive(Clone, Copy, Drop)]
struct Step {
    /// It has a label, or begins a section.
    begins: bool,
    /// Its first token, where it is an instruction.
    instruction: Option<LineToken>,
    /// What comes after it is not executed next.
    jumps: bool,
    /// It goes to a label alone, as the jumps of a table.
    is_direct: bool,
}

/// What a statement is to the flow.
fn step_of(source: &[u8], group: &[LineToken]) -> Step {
    let statement = unlabelled(group);
    let has_label = statement.len() < group.len();
    let Some((mnemonic, operands)) = statement.split_first() else {
        return Step {
            begins: has_label,
            instruction: None,
            jumps: false,
            is_direct: false,
        };
    };
    let word = text_of(source, mnemonic);
    let is_instruction = !word.starts_with(b".");
    Step {
        begins: has_label || (!is_instruction && is_section(word)),
        instruction: if is_instruction {
            Some(*mnemonic)
        } else {
            None
        },
        jumps: is_instruction && jumps(source, word, operands),
        is_direct: is_instruction && is_direct_jump(word),
    }
}

/// Whether an instruction jumps and keeps no address to return to.
fn jumps(source: &[u8], word: &[u8], operands: &[LineToken]) -> bool {
    // no other instruction needs to be looked up
    if !matches!(word, [b'j' | b'r' | b't' | b'c', ..]) {
        return false;
    }
    if is_jump(word) {
        return true;
    }
    match operands.first() {
        Some(link) => is_jump_and_link(word) && is_zero(text_of(source, link)),
        None => false,
    }
}

/// Adds loads and stores at x0, and those at `sp` and a number that is no multiple of their width.
fn put_doubtful_accesses(
    source: &[u8],
    tokens: &[LineToken],
    found: &mut Vec<Warning>,
) -> Result<(), AllocError> {
    let is_kept = keeps_stack(source, tokens);
    for group in tokens.split(is_end) {
        put_doubtful_access(source, unlabelled(group), is_kept, found)?;
    }
    Ok(())
}

/// Adds a load or a store at x0, or at `sp` off a multiple of its width.
fn put_doubtful_access(
    source: &[u8],
    statement: &[LineToken],
    is_kept: bool,
    found: &mut Vec<Warning>,
) -> Result<(), AllocError> {
    if let Some(token) = zero_base_in(source, statement) {
        return put(found, Doubt::AtZero, token);
    }
    match misaligned_in(source, statement) {
        Some(token) if is_kept => put(found, Doubt::Misaligned, token),
        _ => Ok(()),
    }
}

/// The register in parentheses of a load or a store, where it is x0.
fn zero_base_in(source: &[u8], statement: &[LineToken]) -> Option<LineToken> {
    let (mnemonic, operands) = statement.split_first()?;
    let [.., open, base, _] = operands else {
        return None;
    };
    let is_at_zero = open.sort == Sort::Open
        && is_zero(text_of(source, base))
        && is_access(text_of(source, mnemonic));
    if is_at_zero { Some(*base) } else { None }
}

/// The number of a load or a store at `sp` that is no multiple of its width.
fn misaligned_in(source: &[u8], statement: &[LineToken]) -> Option<LineToken> {
    let (mnemonic, operands) = statement.split_first()?;
    let (number, base) = match operands {
        [_, _, number, open, base, _] if open.sort == Sort::Open => (number, base),
        [_, _, minus, number, open, base, _]
            if minus.sort == Sort::Minus && open.sort == Sort::Open => { (number, base) }
        _ => return None,
    };
    let width = width_of(text_of(source, mnemonic));
    let is_off = number.sort == Sort::Number && number.value % width != 0;
    if is_off && is_stack(text_of(source, base)) {
        Some(*number)
    } else {
        None
    }
}

/// Whether `sp` stays a multiple of 16 in all of a source.
fn keeps_stack(source: &[u8], tokens: &[LineToken]) -> bool {
    for group in tokens.split(is_end) {
        if !keeps_multiple(source, unlabelled(group)) {
            return false;
        }
    }
    true
}

/// Whether a statement leaves `sp` a multiple of 16: it writes another register, or adds such a number.
fn keeps_multiple(source: &[u8], statement: &[LineToken]) -> bool {
    let Some((mnemonic, operands)) = statement.split_first() else {
        return true;
    };
    let Some(first) = operands.first() else {
        return true;
    };
    if !is_stack(text_of(source, first)) || is_store(text_of(source, mnemonic)) {
        return true;
    }
    is_addition(text_of(source, mnemonic))
        && operands.iter().all(|token| is_of_sixteens(source, token))
}

/// Whether a token is `sp`, a number that is a multiple of 16, or a sign before or between such.
fn is_of_sixteens(source: &[u8], token: &LineToken) -> bool {
    match token.sort {
        Sort::Number => token.value % 16 == 0,
        Sort::Name => is_stack(text_of(source, token)),
        Sort::Comma => true,
        Sort::Minus => true,
        _ => false,
    }
}

/// Adds each `li` of a hexadecimal number that is the address of a global name. A power of two is a size as often.
fn put_hiding(
    alloc: Global,
    source: &[u8],
    tokens: &[LineToken],
    symbols: &HashMap<u64, &[u8]>,
    found: &mut Vec<Warning>,
) -> Result<(), AllocError> {
    let assigned = assigned_names(alloc, source, tokens)?;
    put_addresses(source, tokens, symbols, &assigned, found)
}

/// Adds each such `li` where these names are constants of the source.
fn put_addresses(
    source: &[u8],
    tokens: &[LineToken],
    symbols: &HashMap<u64, &[u8]>,
    assigned: &HashSet<&[u8]>,
    found: &mut Vec<Warning>,
) -> Result<(), AllocError> {
    for group in tokens.split(is_end) {
        if let Some(number) = number_loaded(source, unlabelled(group))
            && is_address(symbols, number.value, assigned)
        {
            put(found, Doubt::HidesSymbol, number)?;
        }
    }
    Ok(())
}

/// The hexadecimal number that a statement loads, but for powers of two.
fn number_loaded(source: &[u8], statement: &[LineToken]) -> Option<LineToken> {
    let [mnemonic, _, _, number] = statement else {
        return None;
    };
    let is_written = number.sort == Sort::Number
        && text_of(source, number).starts_with(b"0x")
        && number.value & number.value.wrapping_sub(1) != 0;
    if is_written && is_load_of_number(text_of(source, mnemonic)) {
        Some(*number)
    } else {
        None
    }
}

/// Whether a number is the address of a global name that is no constant of a source.
fn is_address(symbols: &HashMap<u64, &[u8]>, value: u64, assigned: &HashSet<&[u8]>) -> bool {
    match symbols.get(&value) {
        Some(name) => !assigned.contains(name),
        None => false,
    }
}

/// The names that a source gives a value.
fn assigned_names<'a>(
    alloc: Global,
    source: &'a [u8],
    tokens: &[LineToken],
) -> Result<HashSet<&'a [u8]>, AllocError> {
    let mut assigned = HashSet::new(alloc);
    for group in tokens.split(is_end) {
        put_assigned(source, unlabelled(group), &mut assigned)?;
    }
    Ok(assigned)
}

/// Adds the name that a statement gives a value.
fn put_assigned<'a>(
    source: &'a [u8],
    statement: &[LineToken],
    assigned: &mut HashSet<&'a [u8]>,
) -> Result<(), AllocError> {
    if let [set, name, ..] = statement
        && text_of(source, set).starts_with(b".")
        && is_assignment(text_of(source, set))
    {
        assigned.insert(text_of(source, name))?;
    }
    Ok(())
}
