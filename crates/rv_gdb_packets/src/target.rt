//! The target's description: a hart of RV64 with the registers x0 to x31 and pc.

use crate::body::CONTENT_LIMIT;
use crate::command::Range;
use crate::numbers::put_number;
use std::alloc::AllocError;

/// The feature that a hart of RISC-V has at least; GDB knows the registers of `org.gnu.gdb.riscv.cpu` by these names.
pub static DESCRIPTION: &str = r#"<?xml version="1.0"?>
<!DOCTYPE target SYSTEM "gdb-target.dtd">
<target version="1.0">
<architecture>riscv:rv64</architecture>
<feature name="org.gnu.gdb.riscv.cpu">
<reg name="zero" bitsize="64" type="int" regnum="0"/>
<reg name="ra" bitsize="64" type="code_ptr"/>
<reg name="sp" bitsize="64" type="data_ptr"/>
<reg name="gp" bitsize="64" type="data_ptr"/>
<reg name="tp" bitsize="64" type="data_ptr"/>
<reg name="t0" bitsize="64" type="int"/>
<reg name="t1" bitsize="64" type="int"/>
<reg name="t2" bitsize="64" type="int"/>
<reg name="fp" bitsize="64" type="data_ptr"/>
<reg name="s1" bitsize="64" type="int"/>
<reg name="a0" bitsize="64" type="int"/>
<reg name="a1" bitsize="64" type="int"/>
<reg name="a2" bitsize="64" type="int"/>
<reg name="a3" bitsize="64" type="int"/>
<reg name="a4" bitsize="64" type="int"/>
<reg name="a5" bitsize="64" type="int"/>
<reg name="a6" bitsize="64" type="int"/>
<reg name="a7" bitsize="64" type="int"/>
<reg name="s2" bitsize="64" type="int"/>
<reg name="s3" bitsize="64" type="int"/>
<reg name="s4" bitsize="64" type="int"/>
<reg name="s5" bitsize="64" type="int"/>
<reg name="s6" bitsize="64" type="int"/>
<reg name="s7" bitsize="64" type="int"/>
<reg name="s8" bitsize="64" type="int"/>
<reg name="s9" bitsize="64" type="int"/>
<reg name="s10" bitsize="64" type="int"/>
<reg name="s11" bitsize="64" type="int"/>
<reg name="t3" bitsize="64" type="int"/>
<reg name="t4" bitsize="64" type="int"/>
<reg name="t5" bitsize="64" type="int"/>
<reg name="t6" bitsize="64" type="int"/>
<reg name="pc" bitsize="64" type="code_ptr"/>
</feature>
</target>
"#;

/// What this side can do, beside how long a packet may be.
static SUPPORTED: &[u8] =
    b";qXfer:features:read+;ReverseStep+;ReverseContinue+;swbreak+;hwbreak+;vContSupported+";

/// Adds what this side can do. A packet has as many bytes at most as its receiver keeps.
pub fn put_supported(reply: &mut Vec<u8>) -> Result<(), AllocError> {
    reply.extend_from_slice(b"PacketSize=")?;
    put_number(reply, CONTENT_LIMIT as u64)?;
    reply.extend_from_slice(SUPPORTED)
}

/// Adds a part of the target's description: `l` before the last, `m` before others.
pub fn put_description(reply: &mut Vec<u8>, range: Range) -> Result<(), AllocError> {
    let whole = DESCRIPTION.as_bytes();
    let start = range.address.min(whole.len() as u64) as usize;
    let rest = whole.split_at(start).1;
    let count = range.length.min(rest.len() as u64) as usize;
    let part = rest.split_at(count).0;
    reply.push(if part.len() == rest.len() { b'l' } else { b'm' })?;
    reply.extend_from_slice(part)
}
