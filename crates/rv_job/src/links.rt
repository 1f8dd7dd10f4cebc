//! What is asked of builds and links.

use rv_link::GroundOptions;

/// How sources or objects are linked.
#[derive(Clone, Copy, Drop)]
pub struct LinkSettings {
    pub options: GroundOptions,
    /// Whether the ends of regions are padded.
    pub pads_ends: bool,
    /// Whether a fault is explained.
    pub explains: bool,
}

/// The files that a link writes.
#[derive(Clone, Copy, Drop)]
pub struct LinkOutputs<'a> {
    pub exe: &'a str,
    /// The map, where a file is named for it.
    pub map: Option<&'a str>,
    /// Whether the executable has names and lines for debuggers.
    pub debug: bool,
}

/// Sources to build.
#[derive(Drop)]
pub struct AskedBuild<'a> {
    pub outputs: LinkOutputs<'a>,
    pub settings: LinkSettings,
    /// The names that the words define, as `NAME=N`.
    pub definitions: Vec<&'a str>,
    pub sources: Vec<&'a str>,
    /// The archives behind the sources.
    pub libraries: LinkWords<'a>,
}

/// Objects and archives to link.
#[derive(Drop)]
pub struct AskedLink<'a> {
    pub outputs: LinkOutputs<'a>,
    pub settings: LinkSettings,
    /// The names that the words define, as `NAME=N`.
    pub definitions: Vec<&'a str>,
    pub files: LinkWords<'a>,
}

/// Sources of which the map is asked for.
#[derive(Drop)]
pub struct AskedMap<'a> {
    pub settings: LinkSettings,
    /// The names that the words define, as `NAME=N`.
    pub definitions: Vec<&'a str>,
    pub sources: Vec<&'a str>,
}

/// A source to assemble.
#[derive(Clone, Copy, Drop)]
pub struct AskedObject<'a> {
    pub object: &'a str,
    pub source: &'a str,
    /// Whether calls may be shortened.
    pub relax: bool,
    /// Whether the object names its source, for debuggers.
    pub debug: bool,
    /// Whether a fault is explained.
    pub explains: bool,
}

/// A file that a link takes.
#[derive(Clone, Copy, Drop)]
pub enum LinkInput<'a> {
    Object(&'a str),
    Archive(&'a str),
    /// The archive of this name in the first of the folders that has it.
    Named(&'a str),
}

/// A word that says what a link takes.
#[derive(Clone, Copy, Drop)]
pub enum LinkWord<'a> {
    Input(LinkInput<'a>),
    /// The archives up to the end of the group are gone round until nothing more is taken of them.
    StartGroup,
    /// The group that was started ends.
    EndGroup,
}

/// What a link takes, as the words say it.
#[derive(Drop)]
pub struct LinkWords<'a> {
    /// In their order; a group that is started is ended, and none stands in another.
    pub words: Vec<LinkWord<'a>>,
    /// The folders in which named archives are looked for.
    pub folders: Vec<&'a str>,
}
