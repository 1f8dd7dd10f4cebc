//! The sites of the text of objects.
//!
//! What is found over numbers knows no object: the sites are those of a text by ghost fields. What the passes ask of them are
//! tests (`AreTextSites`), since it has alternatives, which no ghost field may have.

ghost use Rattle.std.specs.Prelude.{◌≡◌, map, IfOk};
ghost use Rattle.rv_object_types.specs.View.{object_of};
ghost use Rattle.rv_link_laws.specs.CallSites.{sites_of};
ghost use Rattle.rv_call_sizes.specs.Passes.{IsInput};
ghost use Rattle.rv_names.specs.Names.{IsNames};
ghost use Rattle.rv_relax.specs.TextLine.{AreTextSites};

use rv_link_sites::sites;
use rv_names::Names;
use rv_object_types::Object;
use rv_size_laws::Site;
use std::alloc::{AllocError, Global};

/// Objects with their text in order, as far as its size can change: the calls that may be shortened, each with the place that
/// it leads to, the alignments, and the starts of sections. All stand on one line, on which each padding has its bytes in full.
#[derive(Drop)]
pub struct TextLine<'o, 'a> {
    objects: &'o [Object<'a>],
    /// In the order of the text.
    sites: Vec<Site>,
    /// They are those of the objects.
    ghost line: { sites.items ≡ sites_of (map object_of objects.now) },
    /// They stand one behind the other, and calls lead to the start or the end of a call or outside, none too far.
    ghost apart: { AreTextSites sites.items },
}

impl<'o, 'a> TextLine<'o, 'a> {
    ghost use Rattle.rv_relax.specs.Plan.{objects_of_line};

    /// Objects, whose names mean this, with the sites of their text.
    ///
    /// # Errors
    ///
    /// Want of memory.
    pub fn of(
        alloc: Global,
        objects: &'o [Object<'a>],
        names: &Names<'_>,
    ) -> Result<TextLine<'o, 'a>, AllocError>
        requires { IsNames (map object_of objects.now) names.now }
        ensures { IfOk result (λ text_line. objects_of_line text_line ≡ map object_of objects.now) }
    {
        let sites = sites(alloc, objects, names)?;
        Ok(TextLine { objects, sites })
    }

    /// The objects.
    pub(crate) fn objects(&self) -> &'o [Object<'a>]
        ensures { map object_of result.now ≡ objects_of_line self.now }
    {
        self.objects
    }

    /// The sites of their text, in order.
    pub(crate) fn sites(&self) -> &[Site]
        ensures value { result.now ≡ sites_of (objects_of_line self.now) }
        ensures input { IsInput result.now }
    {
        &self.sites
    }
}
