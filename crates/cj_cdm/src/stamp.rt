use cj_base::Tick;

/// When a message is made, by whom, and its number.
#[derive(Clone, Copy, Debug)]
pub struct Stamp<'a> {
    pub created: Tick,
    pub originator: &'a [u8],
    pub number: u32,
}
