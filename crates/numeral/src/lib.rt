// Job numbers as text.
#![tactic(auto)]

mod base;
mod digits;
mod fault;
#[cfg(test)]
mod tests;
mod text;

pub use fault::NumeralFault;
pub use text::parse;
