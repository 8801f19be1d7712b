//! Memory that is lent to one register after another, and is not cleared in between.

use pool::Node;
use std::alloc::{AllocError, Global};

/// More than a register uses.
pub const MOST_NODES: u32 = 66000;

pub const MOST_ROOM: usize = 65536;

#[derive(Drop)]
pub struct Memory {
    nodes: Vec<Node>,
    room: Vec<u8>,
}

impl Memory {
    pub fn new(alloc: Global) -> Result<Memory, AllocError> {
        Ok(Memory {
            nodes: vec![in alloc; Node::default(); MOST_NODES as usize]?,
            room: vec![in alloc; 0; MOST_ROOM]?,
        })
    }

    pub fn nodes(&mut self, count: u32) -> &mut [Node] {
        let most = self.nodes.len().min(count as usize);
        &mut self.nodes.as_mut_slice()[..most]
    }

    /// Runs a script on the proved register. Gives its report, and the number of the refusal that ended it, or 0.
    pub fn run(&mut self, script: &[u8], lent: naive::Lent) -> (&[u8], u8) {
        let most_nodes = self.nodes.len().min(lent.nodes as usize);
        let most_room = self.room.len().min(lent.room);
        let nodes = &mut self.nodes.as_mut_slice()[..most_nodes];
        let room = &mut self.room.as_mut_slice()[..most_room];
        let (length, stopped) = match script::run(script, nodes, lent.first_serial, room) {
            Ok(length) => (length, 0),
            Err(stopped) => (stopped.length, u8::from(stopped.why)),
        };
        (self.room.as_slice().get(..length).unwrap_or(b""), stopped)
    }
}
