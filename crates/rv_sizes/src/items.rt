//! Statements as sizes go by them, in little memory: nearly all are of one form, which needs no target.

ghost use Rattle.std.specs.Prelude.{◌≡◌, ℕ, ◌^◌, ◌<◌, true, List, [], ◌∷◌, ◌++◌, length, IfOk, IfSome, OnErr, OnOk};
ghost use Rattle.rv_sizes.specs.Items.{is_inside, stands_for};
ghost use Rattle.rv_size_laws.specs.declared.item.Item.{Item};
ghost use Rattle.rv_size_laws.specs.Branches.{item_at};

use rv_size_laws::{Forms, Item};
use std::alloc::{AllocError, Global};
use std::marker::Model;

/// A statement in 8 bytes.
#[derive(Clone, Copy, Drop)]
enum Packed {
    /// The section and the bytes of a statement of one form.
    Settled(u16, u32),
    /// The index of any other in a table of their own; one of one form whose section has a number of 2^16 or more is there too.
    Other(u32),
}

const _: () = prove!(size_of::<Packed>() <= 8);

/// Statements as sizes go by them, in the order of the source; clauses see their list. One of one form has 8 bytes, a branch
/// or a jump 32.
#[derive(Drop)]
pub struct Items {
    packed: Vec<Packed>,
    others: Vec<Item>,
}

impl Model for Items {
    ghost use Rattle.std.specs.Prelude.{List};
    ghost use Rattle.rv_size_laws.specs.declared.item.Item.{Item};

    ghost Value = { List Item };

    ghost use Rattle.rv_sizes.specs.Items.{items_in, AreInside};

    ghost view = { items_in };

    ghost invariant = { AreInside };
}

/// A statement by its section and its bytes, where these tell all of it.
fn settled(item: Item) -> Option<Packed>
    ensures same { IfSome result (λ packed. (others : List Item) → stands_for others packed ≡ item) }
    ensures inside { IfSome result (λ packed. (count : ℕ) → is_inside count packed ≡ true) }
{
    match item.forms {
        Forms::Settled(bytes) if item.addend == 0 && item.target == 0 => {
            let section = u16::try_from(item.section).ok()?;
            Some(Packed::Settled(section, bytes))
        }
        _ => None,
    }
}

impl Items {
    /// No statements yet, with room for so many of one form.
    ///
    /// # Errors
    ///
    /// `AllocError` where there is no memory for 8 bytes a statement.
    pub fn with_capacity(alloc: Global, count: usize) -> Result<Items, AllocError>
        ensures { IfOk result (λ items. items ≡ []) }
    {
        Ok(Items {
            packed: Vec::with_capacity(alloc, count)?,
            others: Vec::new(alloc),
        })
    }

    /// Adds a statement behind those that there are. A call that is refused leaves them as they are.
    ///
    /// # Errors
    ///
    /// `AllocError` where there is no memory for one more.
    pub fn push(&mut self, item: Item) -> Result<(), AllocError>
        requires { length self.old < 2 ^ 32 }
        ensures ok { OnOk result (self.new ≡ self.old ++ item ∷ []) }
        ensures err { OnErr result (self.new ≡ self.old) }
    {
        if let Some(packed) = settled(item) {
            self.packed.push(packed)?;
            return Ok(());
        }
        // room first, so that no push is refused between the two and there are never more others than statements
        self.packed.reserve(1)?;
        let index = self.others.len() as u32;
        self.others.push(item)?;
        self.packed.push(Packed::Other(index))?;
        Ok(())
    }

    /// How many statements there are.
    pub fn len(&self) -> usize
        ensures { result ≡ length self.now }
    {
        self.packed.len()
    }

    /// The statement of an index, from 0.
    #[inline]
    pub fn get(&self, index: usize) -> Item
        requires { index < length self.now }
        ensures { result ≡ item_at self.now index }
    {
        match self.packed[index] {
            Packed::Settled(section, bytes) => Item {
                addend: 0,
                section: u32::from(section),
                target: 0,
                forms: Forms::Settled(bytes),
            },
            Packed::Other(other) => self.others[other as usize],
        }
    }
}
