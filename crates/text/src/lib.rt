// Numbers and bytes as text, put into lent buffers. Each function that puts takes every input: what does not fit is left out, and the
// reply is the place behind what was put.
#![tactic(auto)]

mod byte;
mod decimal;
mod hexadecimal;

pub use byte::put_byte;
pub use decimal::put_decimal;
pub use hexadecimal::put_hex;
