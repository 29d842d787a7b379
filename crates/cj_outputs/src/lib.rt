//! What a run has found, and its outputs: how they are made and put, and how a certificate that is read, and the report
//! beside it, are judged, and how one is written anew.
#![tactic(auto)]

mod any_certificate;
mod catalogues;
mod changes;
mod checking;
mod counting;
mod coverage;
mod differing;
mod findings;
mod later;
mod lines;
mod meetings;
mod messages;
mod origin;
mod processors;
mod putting;
mod reporting;
mod rewriting;
mod thinning;
mod vouching;
mod wanted;

pub use any_certificate::AnyCertificate;
pub use catalogues::put_catalogue;
pub use changes::{Changes, put_changes};
pub use checking::check_certificate;
pub use counting::{SearchCounts, count};
pub use findings::{Behind, Findings};
pub use later::accepted_later;
pub use lines::Lines;
pub use meetings::{Meetings, find_meetings};
pub use messages::note_messages;
pub use origin::Origin;
pub use putting::{begin, put};
pub use reporting::{put_outputs, put_summary};
pub use rewriting::{put_rewritten, rewrite_certificate};
pub use thinning::{put_thinned, stays_within};
pub use wanted::Wanted;
