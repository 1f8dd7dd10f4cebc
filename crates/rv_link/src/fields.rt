//! The fields of sections.

ghost use Rattle.std.specs.Prelude.{◌≡◌, ◌+◌, ◌<◌, ◌≤◌, IfErr, OnOk, length};
ghost use Rattle.rv_isa.specs.Kinds.{width_of};
ghost use Rattle.rv_link_laws.specs.Values.{patched_at};
ghost use Rattle.rv_reloc_laws.specs.Ranges.{Takes, Refuses};

use rv_fault::LinkFault;
use rv_isa::Kind;
use rv_reloc::patch;

/// Writes a value to the field at an offset of these bytes. Kinds without a field change nothing.
///
/// # Errors
///
/// `Overflow` where the field cannot hold the value, and `OddTarget` where a jump would go to an odd address.
pub(crate) fn apply(bytes: &mut [u8], place: u64, kind: Kind, value: i64) -> Result<(), LinkFault>
    requires { 0 < width_of kind → place + width_of kind ≤ length bytes.old }
    ensures takes { OnOk result (Takes kind value) }
    ensures writes { OnOk result (bytes.new ≡ patched_at place kind value bytes.old) }
    ensures refuses { IfErr result (Refuses kind value) }
{
    let width = kind.width();
    if width == 0 {
        return Ok(());
    }
    let from = place as usize;
    patch(&mut bytes[from..from + width], kind, value)
}
