//! Lists with an element for each statement, of which a source may have 4 million, that go while others are made of
//! them.

ghost use Rattle.std.specs.Prelude.{◌≡◌};

/// How many elements give their memory back at a time.
const BLOCK: usize = 65_536;

/// Gives back the memory of the elements that are gone, once for each block.
pub fn give_back<T>(list: &mut Vec<T>)
    ensures { list.new.items ≡ list.old.items }
{
    if list.len() % BLOCK == 0 {
        list.shrink_to_fit();
    }
}
