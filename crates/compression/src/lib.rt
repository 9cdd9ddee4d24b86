// One block of SHA-256 (FIPS 180-4, §6.2.2): the hash value after one more block, and its bytes.
#![tactic(auto)]

mod expansion; // step 1: the message schedule
mod state; // steps 2 to 4: the rounds on the hash value, and its bytes
mod word; // §4.1.2: the functions on words

pub use state::{bytes, compress, start};
