//! Numbers in decimal and in hexadecimal, put into a buffer and read from a text. A number has one
//! spelling in each: no leading zeros, and lower-case digits behind `0x`.
#![tactic(auto)]

mod putting;
mod reading;

pub use putting::{put_decimal, put_decimal_or_dash, put_hexadecimal};
pub use reading::{read_decimal, read_hexadecimal};

#[cfg(test)]
mod tests;
