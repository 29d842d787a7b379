//! The grammar of a file, line by line.
ghost use Rattle.std.specs.Prelude.{◌≡◌, ◌^◌, ◌<◌, Bool, length};
ghost use Rattle.cj_kvn.specs.Lines.{KindIsWithin, Mark, Pair, Row, form_at};
ghost use Rattle.cj_kvn.specs.Ranges.{IsWithin, text_at};
ghost use Rattle.cj_kvn.specs.Faults.{Follows, Tells};
ghost use Rattle.cj_oem.specs.Readers.{body_of, stage_of};
ghost use Rattle.cj_oem.specs.MetadataDrafts.{HasLabel, IsLabelled};
ghost use Rattle.cj_oem.specs.Stages as spec;

use crate::body::{Body, OpenSegment};
use crate::complete_nodes::CompleteNodes;
use crate::covariances::Covariances;
use crate::head::Head;
use crate::marks::{after_covariances, after_header, after_metadata, after_nodes, after_segment};
use crate::metadata_draft::MetadataDraft;
use crate::node_row::node_of_row;
use cj_formats::OemCause;
use cj_kvn::{LineKind, MarkKind, Range32, Refused};
use std::alloc::Global;
use std::mem;

/// Where a reader stands.
///
/// What is let go is handed to `drop`: where it goes by itself, or an assignment lets it go, a check follows each part of each stage
/// through the whole body.
#[derive(Drop)]
pub(crate) enum Stage {
    Start,
    Header(Head),
    Meta(Body, MetadataDraft),
    Data(Body, OpenSegment),
    Cov(CompleteNodes, Covariances),
    After(Body),
}

impl Stage {
    /// Follows a line: blank lines and comments change nothing, and only marks lead to another stage.
    #[tactic(auto, unfolding(crate::specs::Stages::follows))]
    pub(crate) fn follow(
        &mut self,
        alloc: Global,
        bytes: &[u8],
        line: LineKind,
        as_hermite3: bool,
    ) -> Result<(), Refused<OemCause>>
        requires within { KindIsWithin bytes.now line }
        requires short { length bytes.now < 2 ^ 32 }
        requires label { HasLabel (form_at bytes.now line) }
        ensures { Follows (λ _. stage_of self.new) result (spec.follows as_hermite3 (stage_of self.old) (form_at bytes.now line)) }
    {
        match line {
            LineKind::Blank | LineKind::Comment => Ok(()),
            LineKind::Row { text } => self.take_row(bytes, text),
            LineKind::Pair { key, value } => {
                self.take_pair(alloc, key.text(bytes), value.text(bytes))
            }
            LineKind::Mark(mark) => {
                let stage = mem::replace(self, Stage::Start);
                let stage = stage.marked(alloc, mark, as_hermite3)?;
                drop(mem::replace(self, stage));
                Ok(())
            }
        }
    }

    /// Takes a row of a node or of a covariance.
    fn take_row(&mut self, bytes: &[u8], text: Range32) -> Result<(), Refused<OemCause>>
        requires within { IsWithin bytes.now text }
        requires short { length bytes.now < 2 ^ 32 }
        ensures { (as_hermite3 : Bool) → Follows (λ _. stage_of self.new) result (spec.led as_hermite3 (stage_of self.old) (Row (text_at bytes.now text))) }
    {
        match self {
            Stage::Data(_, open_segment) => {
                let node = node_of_row(bytes, text, open_segment.nodes.last())?;
                open_segment.nodes.push(node)?;
                Ok(())
            }
            Stage::Cov(_, covariances) => {
                covariances.row(bytes, text)?;
                Ok(())
            }
            _ => Err(Refused::Because(OemCause::Order)),
        }
    }

    /// Takes a key with its value: the first line is one.
    fn take_pair(
        &mut self,
        alloc: Global,
        key: &[u8],
        value: &[u8],
    ) -> Result<(), Refused<OemCause>>
        requires { IsLabelled value.now }
        ensures { (as_hermite3 : Bool) → Follows (λ _. stage_of self.new) result (spec.led as_hermite3 (stage_of self.old) (Pair key.now value.now)) }
    {
        match self {
            Stage::Start => {
                check_version(key, value)?;
                drop(mem::replace(self, Stage::Header(Head::EMPTY)));
                Ok(())
            }
            Stage::Header(head) => {
                *head = head.with(key)?;
                Ok(())
            }
            Stage::Meta(body, draft) => draft.take_pair(alloc, body.object.as_ref(), key, value),
            Stage::Cov(_, covariances) => covariances.pair(key, value),
            _ => Err(Refused::Because(OemCause::Order)),
        }
    }

    /// What a mark leads to.
    fn marked(
        self,
        alloc: Global,
        mark: MarkKind,
        as_hermite3: bool,
    ) -> Result<Stage, Refused<OemCause>>
        ensures { Follows stage_of result (spec.led as_hermite3 (stage_of self) (Mark mark)) }
    {
        match self {
            Stage::Start => Err(Refused::Because(OemCause::Order)),
            Stage::Header(head) => after_header(alloc, head, mark),
            Stage::Meta(body, draft) => after_metadata(alloc, body, draft, mark, as_hermite3),
            Stage::Data(body, open_segment) => after_nodes(alloc, body, open_segment, mark),
            Stage::Cov(closed, covariances) => after_covariances(closed, covariances, mark),
            Stage::After(body) => after_segment(body, mark),
        }
    }

    /// What the end of the file leads to.
    #[tactic(auto, unfolding(crate::specs::Stages::finished))]
    pub(crate) fn finish(self, alloc: Global) -> Result<Body, Refused<OemCause>>
        ensures { Follows body_of result (spec.finished (stage_of self)) }
    {
        match self {
            Stage::Data(body, open_segment) => {
                Ok(CompleteNodes::new(body, open_segment)?.with(Vec::new(alloc))?)
            }
            Stage::After(body) => Ok(body),
            stage => {
                drop(stage);
                Err(Refused::Because(OemCause::Missing))
            }
        }
    }
}

/// The first line gives the version, which has to be one that is read.
fn check_version(key: &[u8], value: &[u8]) -> Result<(), OemCause>
    ensures { Tells (λ _. spec.Header spec.NO_HEAD) result (spec.begun (Pair key.now value.now)) }
{
    if key != b"CCSDS_OEM_VERS".as_slice() {
        return Err(OemCause::Order);
    }
    if !is_version(value) {
        return Err(OemCause::Version);
    }
    Ok(())
}

/// Whether a version is one that is read.
fn is_version(value: &[u8]) -> bool
    ensures { result ≡ spec.is_version value.now }
{
    value == b"1.0".as_slice() || value == b"2.0".as_slice() || value == b"3.0".as_slice()
}
