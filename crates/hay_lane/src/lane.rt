//! A lane, and what all lanes share.

use hay_needle::Settings;
use hay_reader::LaneSeat;

/// The seats of one lane, at each volume and at the Directory, and its arm.
#[derive(Drop)]
pub struct Lane<S: Drop, T: Drop, A> {
    pub volumes: Vec<S>,
    pub directory: T,
    pub arm: LaneSeat<A>,
}

/// The volumes and the Directory behind their locks. Machines are drained between the blocks of lines alone.
pub struct Shared<V, D> {
    pub settings: Settings,
    pub volumes: Vec<V>,
    pub directory: D,
    pub drained: Vec<bool>,
}
