//! What is asked of cases: sources with what must come of them.

/// The cases that are run, and how it is said what came of them.
#[derive(Drop)]
pub struct AskedCases<'a> {
    /// Sources, and folders of them.
    pub files: Vec<&'a str>,
    /// The most instructions of a run, where the case says nothing.
    pub limit: u64,
    /// Whether each case has an object of JSON in a line of its own.
    pub json: bool,
    /// The file for a report in the XML of JUnit.
    pub junit: Option<&'a str>,
}
