//! What came of cases as XML, in the elements that JUnit's reports have.
//!
//! Source: Extensible Markup Language (XML) 1.0, 2.2 "Characters" and 4.6 "Predefined Entities".

use crate::failure::Failure;
use crate::running::Sum;
use crate::xml::Part::{Content, Markup};
use std::alloc::{AllocError, Global};

/// What stands in a report.
#[derive(Clone, Copy, Drop)]
enum Part<'a> {
    Markup(&'a str),
    /// A text as content or as the value of an attribute.
    Content(&'a str),
}

/// Adds the element of a case, of which its folder is the class.
pub(crate) fn put_test_case(
    text: &mut String,
    name: &str,
    failure: Option<&Failure>,
) -> Result<(), AllocError> {
    let (folder, base) = name.rsplit_once('/').unwrap_or(("", name));
    put_parts(
        text,
        &[
            Markup("<testcase classname=\""),
            Content(folder),
            Markup("\" name=\""),
            Content(base),
        ],
    )?;
    match failure {
        None => text.push_str("\"/>\n"),
        Some(failure) => put_failure(text, failure),
    }
}

/// Adds the rest of the element of a case that fails.
fn put_failure(text: &mut String, failure: &Failure) -> Result<(), AllocError> {
    put_parts(
        text,
        &[
            Markup("\">\n<failure message=\""),
            Content(failure.message.as_str()),
            Markup("\">"),
            Content(failure.details.as_str()),
            Markup("</failure>\n</testcase>\n"),
        ],
    )
}

/// Adds parts, one after another.
fn put_parts(text: &mut String, parts: &[Part<'_>]) -> Result<(), AllocError> {
    for part in parts {
        match *part {
            Markup(markup) => text.push_str(markup)?,
            Content(content) => put_escaped(text, content)?,
        }
    }
    Ok(())
}

/// The whole report, of these elements.
pub(crate) fn test_suites(alloc: Global, cases: &str, sum: Sum) -> Result<String, AllocError> {
    let failed = sum.failed;
    let tests = sum.passed.saturating_add(failed);
    let sums = format!(in alloc; "tests=\"{tests}\" failures=\"{failed}\"")?;
    format!(in alloc;
        "<?xml version=\"1.0\" encoding=\"UTF-8\"?>\n<testsuites {sums}>\n<testsuite name=\"rv test\" {sums}>\n{cases}</testsuite>\n</testsuites>\n"
    )
}

/// Adds a text as content or as the value of an attribute. A character that XML cannot have is U+FFFD.
fn put_escaped(text: &mut String, part: &str) -> Result<(), AllocError> {
    for letter in part.chars() {
        match escape_of(letter) {
            Some(escape) => text.push_str(escape)?,
            None => text.push(letter)?,
        }
    }
    Ok(())
}

/// What stands for a character that cannot stand for itself.
fn escape_of(letter: char) -> Option<&'static str> {
    match letter {
        '&' => Some("&amp;"),
        '<' => Some("&lt;"),
        '>' => Some("&gt;"),
        '"' => Some("&quot;"),
        '\'' => Some("&apos;"),
        '\n' => Some("&#10;"),
        '\t' => Some("&#9;"),
        '\r' => Some("&#13;"),
        '\0'..='\x1f' | '\u{FFFE}' | '\u{FFFF}' => Some("\u{FFFD}"),
        _ => None,
    }
}
