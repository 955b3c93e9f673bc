// The entries that C calls (include/hipokuta.h), which hipokuta_c gives to it: numbers and byte slices, laid out as
// docs/LAYOUT.md says.
#![tactic(auto)]

mod check; // the check of a stream
mod report; // the report alone
mod patch; // the delay of a picture header
mod send; // the writer

pub use crate::check::vbv_check;
pub use crate::patch::vbv_patch_delay;
pub use crate::report::vbv_report;
pub use crate::send::{cbr_create, cbr_create_config, cbr_offer, cbr_withdraw};
