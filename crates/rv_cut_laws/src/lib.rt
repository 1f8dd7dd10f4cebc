//! What relaxation leaves of objects, said a second time: by the moves of each section, whoever made them.
//!
//! `rv_link_laws` says what calls are shortened to. Here are the same objects as cuts of their sections ([`Cutting`], with
//! the walk along the sites of a text, [`Walk`]), and the lemmas on them by which a link is proved and calls are shown to
//! reach: paddings and fields keep their order, and offsets move as much as is cut before them. What nobody has to believe
//! stands here: no contract names these definitions but those of the passes that cut.
//!
//! Nothing here runs.
//!
//! [`Cutting`]: ../specs/Cutting.antt
//! [`Walk`]: ../specs/Walk.antt
#![tactic(auto)]
