//! Objects with what the directives of their sources say.

use rv_debug_laws::Mark;
use rv_object_types::Object;

/// An object, and what the directives of its source say, in their order.
#[derive(Drop)]
pub struct Described<'a> {
    pub object: Object<'a>,
    pub marks: Vec<Mark<'a>>,
}
