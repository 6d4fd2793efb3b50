//! Judging the text of a certificate.
#![tactic(auto)]

mod cert_judging;
mod checker;
mod judged;
mod judging;
mod laws;
mod line_judging;
mod points;

pub use cert_judging::judge_cert;
pub use checker::Checker;
pub use judged::Judged;
pub use judging::Verdict;
pub use laws::accepted_is_sound;
