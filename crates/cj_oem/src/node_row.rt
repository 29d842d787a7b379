//! The row of a node.
ghost use Rattle.std.specs.Prelude.{◌≡◌, ◌==◌, ◌||◌, ◌^◌, ◌<◌, ◌≤◌, ◌+◌, not, All, IfOk, IfSome, drop, length, option_map};
ghost use Rattle.std.specs.List.{list_all};
ghost use Rattle.cj_kvn.specs.Fields.{fields, texts_of};
ghost use Rattle.cj_kvn.specs.Ranges.{IsWithin, text_at};
ghost use Rattle.cj_kvn.specs.Faults.{Tells};
ghost use Rattle.cj_track.specs.Limits as limits;
ghost use Rattle.cj_oem.specs.Metadata.{unless};
ghost use Rattle.cj_oem.specs.NodeRows as spec;
ghost use Rattle.cj_track.specs.Nodes.{IsStep};
ghost use Rattle.cj_track.specs.Tracks.{plain_node};

use crate::figures::{Figures, is_decimal, parse_figure, within_or};
use crate::word::parse_epoch;
use cj_epoch::leap_between;
use cj_formats::OemCause;
use cj_kvn::{Range32, RowFields, row_fields};
use cj_track::{Node, Vec3};

/// 500,000 km in nm: the greatest size of a coordinate.
const COORDINATE_LIMIT: u64 = 500_000_000_000_000_000;

/// 20 km/s in nm/s: the greatest size of a rate.
const RATE_LIMIT: u64 = 20_000_000_000_000;

/// An hour in microseconds: the greatest distance of neighbouring nodes.
const STEP_LIMIT: u64 = 3_600_000_000;

/// The node of a row, which follows the node before, if there is one.
///
/// # Errors
///
/// The first of these: `Fields`, `Epoch`, `Number`, `CoordinateRange`, `RateRange`, `TimesFall`, `StepTooLong`, `LeapSecond`.
#[tactic(auto, unfolding(crate::specs::NodeRows::state_of_fields))]
pub(crate) fn node_of_row(
    bytes: &[u8],
    text: Range32,
    before: Option<Node>,
) -> Result<Node, OemCause>
    requires within { IsWithin bytes.now text }
    requires short { length bytes.now < 2 ^ 32 }
    ensures value { Tells plain_node result (spec.state_of_row (option_map plain_node before) (text_at bytes.now text)) }
    ensures step { IfSome before (λ b. IfOk result (IsStep b)) }
{
    following(before, node_said(bytes, text)?)
}

/// The node that a row says, whatever stands before it.
#[tactic(auto, unfolding(crate::specs::NodeRows::state_said))]
fn node_said(bytes: &[u8], text: Range32) -> Result<Node, OemCause>
    requires within { IsWithin bytes.now text }
    requires short { length bytes.now < 2 ^ 32 }
    ensures { Tells plain_node result (spec.state_said (fields (text_at bytes.now text))) }
{
    let row = node_fields(bytes, text)?;
    let at = parse_epoch(row.text(bytes, 0))?;
    let place = figures_from(bytes, &row, 1)?;
    let rate = figures_from(bytes, &row, 4)?;
    check_accelerations(bytes, &row)?;
    let p = vector_within(COORDINATE_LIMIT, OemCause::CoordinateRange, place)?;
    let v = vector_within(RATE_LIMIT, OemCause::RateRange, rate)?;
    Ok(Node { at, p, v })
}

/// The fields of the row of a node: seven, or ten with accelerations.
fn node_fields(bytes: &[u8], text: Range32) -> Result<RowFields, OemCause>
    requires { IsWithin bytes.now text }
    ensures value { let parts = fields (text_at bytes.now text) in Tells (λ _. tt) result (unless (not ((length parts == 7) || (length parts == 10))) OemCause.Fields) }
    ensures texts { IfOk result (λ row. texts_of bytes.now row ≡ fields (text_at bytes.now text)) }
    ensures within { IfOk result (λ row. All (IsWithin bytes.now) row.found) }
    ensures at_least { IfOk result (λ row. 7 ≤ row.count) }
    ensures at_most { IfOk result (λ row. row.count ≤ 10) }
{
    let row = row_fields(bytes, text);
    match row.count {
        7 | 10 => Ok(row),
        _ => Err(OemCause::Fields),
    }
}

/// The numbers of three fields, from this one on.
#[tactic(auto, unfolding(crate::specs::NodeRows::figures_in))]
fn figures_from(bytes: &[u8], row: &RowFields, first: u32) -> Result<Figures, OemCause>
    requires within { All (IsWithin bytes.now) row.now.found }
    requires short { length bytes.now < 2 ^ 32 }
    requires there { first + 3 ≤ row.now.count }
    requires at_most { row.now.count ≤ 10 }
    ensures { result ≡ spec.figures_in (texts_of bytes.now row.now) first }
{
    let x = parse_figure(row.text(bytes, first))?;
    let y = parse_figure(row.text(bytes, first + 1))?;
    let z = parse_figure(row.text(bytes, first + 2))?;
    Ok(Figures { x, y, z })
}

/// The fields behind the rate, if there are any, have to be numbers.
fn check_accelerations(bytes: &[u8], row: &RowFields) -> Result<(), OemCause>
    requires within { All (IsWithin bytes.now) row.now.found }
    requires short { length bytes.now < 2 ^ 32 }
    requires at_most { row.now.count ≤ 10 }
    ensures { Tells (λ _. tt) result (unless (not (list_all spec.is_decimal (drop 7 (texts_of bytes.now row.now)))) OemCause.Number) }
{
    for index in 7..row.count {
        if !is_decimal(row.text(bytes, index)) {
            return Err(OemCause::Number);
        }
    }
    Ok(())
}

/// Three numbers that are at most so large in size.
fn vector_within(limit: u64, cause: OemCause, figures: Figures) -> Result<Vec3, OemCause>
    requires { limit < 2 ^ 63 }
    ensures value { result ≡ spec.vector_within limit cause figures.x figures.y figures.z }
    ensures within { IfOk result (λ v. limits.IsWithin limit v.x × limits.IsWithin limit v.y × limits.IsWithin limit v.z) }
{
    let x = within_or(limit, cause, figures.x)?;
    let y = within_or(limit, cause, figures.y)?;
    let z = within_or(limit, cause, figures.z)?;
    Ok(Vec3 { x, y, z })
}

/// The node, where it may follow the one before.
fn following(before: Option<Node>, node: Node) -> Result<Node, OemCause>
    ensures value { Tells plain_node result (spec.following (option_map plain_node before) (plain_node node)) }
    ensures step { IfSome before (λ b. IfOk result (IsStep b)) }
{
    let Some(before) = before else {
        return Ok(node);
    };
    if node.at <= before.at {
        return Err(OemCause::TimesFall);
    }
    if before.at.micros + STEP_LIMIT < node.at.micros {
        return Err(OemCause::StepTooLong);
    }
    if leap_between(before.at, node.at) {
        return Err(OemCause::LeapSecond);
    }
    Ok(node)
}
