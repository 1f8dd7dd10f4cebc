//! What is asked of files.

/// A file whose instructions are asked for.
#[derive(Clone, Copy, Drop)]
pub struct AskedCode<'a> {
    pub file: &'a str,
    /// The map of an executable.
    pub map: Option<&'a str>,
    /// Whether the map comes before the file in the words.
    pub map_first: bool,
    /// Whether instructions are shown by their aliases.
    pub aliases: bool,
    /// Whether the lines of source are shown.
    pub lines: bool,
}

/// An image that the words ask for.
#[derive(Clone, Copy, Drop)]
pub struct AskedImage<'a> {
    pub exe: &'a str,
    pub output: &'a str,
    pub format: ImageFormat,
    /// What gaps are filled with; where none is given, a text leaves them out, and a binary has zeros.
    pub fill: Option<u8>,
}

/// How an image is written.
#[derive(Clone, Copy, Drop)]
pub enum ImageFormat {
    /// The bytes themselves, from the lowest address on.
    Binary,
    /// Lines with addresses, as text.
    Text(TextFormat),
}

/// The texts that have addresses.
#[derive(Clone, Copy, Drop)]
pub enum TextFormat {
    /// Intel HEX.
    IntelHex,
    /// Motorola S-records.
    SRecords,
    /// What Verilog's `$readmemh` reads.
    MemoryText,
}

/// How a job writes what it tells.
#[derive(Clone, Copy, PartialEq, Eq, Drop)]
pub enum OutputFormat {
    /// For people.
    Text,
    /// Objects of JSON, each in a line.
    Json,
}

/// How what is found in sources is written.
#[derive(Clone, Copy, Drop)]
pub enum ReportFormat {
    /// For people.
    Text,
    /// As GCC writes faults, for editors.
    Gcc,
    /// An object of JSON in a line for each.
    Json,
}
