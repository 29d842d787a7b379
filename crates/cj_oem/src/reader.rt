//! Reading a file.
ghost use Rattle.std.specs.Prelude.{◌≡◌, ◌+◌, ◌≤◌, ◌^◌, ◌<◌, true, IfOk, IfErr, length};
ghost use Rattle.std.specs.List.{list_all};
ghost use Rattle.cj_kvn.specs.Lines.{reading};
ghost use Rattle.cj_track.specs.PlainTracks.{PlainTrack};
ghost use Rattle.cj_oem.specs.Grammar.{Says};
ghost use Rattle.cj_track.specs.Labels as labels;
ghost use Rattle.cj_oem.specs.Reading as spec;
ghost use Rattle.cj_kvn.specs.Faults.{Gives};
ghost use Rattle.cj_oem.specs.Readers.{body_of};
ghost use Rattle.cj_track.specs.Segments.{node_count};
ghost use Rattle.cj_track.specs.Tracks.{plain_track};

use crate::body::Body;
use crate::fault::OemFault;
use crate::stage::Stage;
use cj_base::Text;
use cj_formats::OemCause;
use cj_kvn::LineCursor;
use cj_track::Track;
use std::alloc::Global;

/// The ephemeris that the bytes of the file with this name say.
///
/// The cubic between two nodes may be taken where the file declares another interpolation or none.
///
/// # Errors
///
/// The first fault of the file, at its line.
pub fn read_oem(
    alloc: Global,
    name: &[u8],
    bytes: &[u8],
    as_hermite3: bool,
) -> Result<Track, OemFault>
    requires { length bytes.now + 1 < 2 ^ 32 }
    ensures value { spec.Gives result (spec.reading name.now bytes.now as_hermite3) }
    ensures says { IfOk result (λ track. Says as_hermite3 name.now bytes.now (plain_track track)) }
    ensures accepts { (e : PlainTrack) → Says as_hermite3 name.now bytes.now e → spec.IsTrackOf result e }
    ensures refuses { IfErr result (λ fault. spec.IsOfFile fault → (e : PlainTrack) → Says as_hermite3 name.now bytes.now e → ⊥) }
{
    if !is_file_name(name) {
        return Err(OemFault::At {
            line: 0,
            cause: OemCause::Name,
        });
    }
    let body = read_body(alloc, bytes, as_hermite3)?;
    track_of(alloc, name, body)
}

/// Whether a name is one of 1 to 200 printable bytes.
#[tactic(auto, unfolding(cj_track::specs::Labels::is_file_name))]
fn is_file_name(name: &[u8]) -> bool
    ensures { result ≡ labels.is_file_name name.now }
{
    1 <= name.len() && name.len() <= 200 && are_visible(name)
}

fn are_visible(text: &[u8]) -> bool
    ensures { result ≡ list_all labels.is_visible text.now }
{
    text.iter().all(|b| 32 <= *b && *b <= 126)
}

/// What the lines of a file say. A line without a form comes before what is wrong with an earlier one.
fn read_body(alloc: Global, bytes: &[u8], as_hermite3: bool) -> Result<Body, OemFault>
    requires { length bytes.now + 1 < 2 ^ 32 }
    ensures { Gives body_of result (spec.body_said as_hermite3 (reading bytes.now)) }
{
    let mut lines = LineCursor::new(bytes);
    let mut stage = Stage::Start;
    let mut number = 1;
    while let Some(line) = lines.next_line()? {
        if let Err(refused) = stage.follow(alloc, bytes, line.kind, as_hermite3) {
            drop(stage);
            lines.check_rest()?;
            return Err(refused.at(line.number));
        }
        number = line.number + 1;
    }
    match stage.finish(alloc) {
        Ok(body) => Ok(body),
        Err(refused) => Err(refused.at(number)),
    }
}

/// The track of the file with this name.
fn track_of(alloc: Global, file: &[u8], body: Body) -> Result<Track, OemFault>
    requires named { labels.is_file_name file.now ≡ true }
    requires some { 1 ≤ length body.segments }
    requires few { node_count body.segments < 2 ^ 32 }
    ensures { Gives plain_track result (spec.with_object file.now (body_of body) (body_of body).object) }
{
    let Body { object, segments } = body;
    let Some(object) = object else {
        return Err(OemFault::At {
            line: 0,
            cause: OemCause::Missing,
        });
    };
    Ok(Track {
        file: Text::copy_of(alloc, file)?,
        name: object.name,
        id: object.id,
        frame: object.frame,
        segments: segments.into_segments(alloc)?,
    })
}
