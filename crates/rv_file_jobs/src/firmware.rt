//! Images of executables for programmers of flash memory and simulators of hardware.

use rv_fault::Fault;
use rv_firmware::{Firmware, FirmwareFault, binary, intel_hex, memory_text, s_records};
use rv_job::{AskedImage, ImageFormat, TextFormat};
use rv_system::{JobError, Purpose, System, fault_line, file_bytes, write};
use std::alloc::{AllocError, Global};

/// Writes an image of an executable; the exit status.
#[inline(never)]
pub fn write_image<S: System>(system: &mut S, asked: &AskedImage<'_>) -> Result<u8, JobError> {
    let alloc: Global = system.alloc();
    let file = file_bytes(system, asked.exe)?;
    match Firmware::of(alloc, file.as_slice()) {
        Ok(firmware) => write_firmware(system, asked, &firmware),
        Err(fault) => Err(firmware_line(alloc, fault, asked.exe)?),
    }
}

/// Writes an image of what an executable loads; the exit status.
fn write_firmware<S: System>(
    system: &mut S,
    asked: &AskedImage<'_>,
    firmware: &Firmware<'_>,
) -> Result<u8, JobError> {
    let alloc: Global = system.alloc();
    match image(alloc, firmware, asked.format, asked.fill) {
        Ok(image) => {
            write(system, asked.output, Purpose::ToRead, image.as_slice())?;
            Ok(0)
        }
        Err(fault) => Err(firmware_line(alloc, fault, asked.exe)?),
    }
}

/// The bytes of an image.
fn image(
    alloc: Global,
    firmware: &Firmware<'_>,
    format: ImageFormat,
    fill: Option<u8>,
) -> Result<Vec<u8>, FirmwareFault> {
    match format {
        ImageFormat::Binary => Ok(binary(alloc, firmware, fill.unwrap_or(0))?),
        ImageFormat::Text(format) => match fill {
            None => Ok(text(alloc, firmware, format)?),
            Some(byte) => filled_text(alloc, firmware, format, byte),
        },
    }
}

/// The text of an image whose gaps are filled.
fn filled_text(
    alloc: Global,
    firmware: &Firmware<'_>,
    format: TextFormat,
    fill: u8,
) -> Result<Vec<u8>, FirmwareFault> {
    let bytes = binary(alloc, firmware, fill)?;
    let first = firmware.first_address();
    let whole = Firmware::of_bytes(alloc, first, bytes.as_slice(), firmware.entry)?;
    Ok(text(alloc, &whole, format)?)
}

/// The text of an image.
fn text(alloc: Global, firmware: &Firmware<'_>, format: TextFormat) -> Result<Vec<u8>, AllocError> {
    match format {
        TextFormat::IntelHex => intel_hex(alloc, firmware),
        TextFormat::SRecords => s_records(alloc, firmware),
        TextFormat::MemoryText => memory_text(alloc, firmware),
    }
}

/// The line of an executable that has no image.
fn firmware_line(alloc: Global, fault: FirmwareFault, name: &str) -> Result<JobError, AllocError> {
    match fault {
        FirmwareFault::File(fault) => fault_line(alloc, &Fault::File(1, fault), &[name]),
        FirmwareFault::Address => Ok(JobError::Line(format!(in alloc;
            "{name}: an address has over 32 bits"
        )?)),
        FirmwareFault::Memory => Ok(JobError::Memory),
    }
}
