// Building an area: format and add.
#![tactic(auto)]

mod adding;
mod fresh;

pub use adding::add;
pub use fresh::format;
