//! Conjunction data messages: the message of an encounter, as text, and how such a text is read.
#![tactic(auto)]

mod adding;
mod building;
mod cdm;
mod covariance_index;
mod covariances;
mod dated;
mod dating;
mod designators;
mod elements;
mod fault;
mod fields;
mod indexing;
mod naming;
mod printing;
mod reading;
mod segment_covariances;
mod stamp;
mod track_covariances;
mod writing;

pub use adding::add_lines;
pub use cdm::{Cdm, Side};
pub use cj_rtn::{AxisValues, Rtn, Vector};
pub use covariance_index::CovarianceIndex;
pub use fault::{CdmCause, CdmFault};
pub use naming::message_name;
pub use reading::{read_cdm, read_message};
pub use stamp::Stamp;
