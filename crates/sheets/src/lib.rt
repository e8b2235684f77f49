// Sheets as text: what one comes to, in lines and what refused it, whichever its kind.
#![tactic(auto)]

mod output;
mod printing;
mod rest;

pub use output::Printed;
pub use printing::{is_of_days, print_sheet};
pub use rest::put_rest;
