//! Certificates: their one text, its writing and its reading.
#![tactic(auto)]

mod cert;
mod laws;
mod lines;
mod measuring;
mod place;
mod reading;
mod scanning;
mod step;
mod writing;

pub use cert::{Cert, Entry, Point, Terms, Version};
pub use laws::text_has_one_reading;
pub use lines::Lines;
pub use measuring::text_len;
pub use reading::read_cert;
pub use step::LineStep;
pub use writing::write_cert;
