//! What a check saw.
use filter_db::Entry;
use overlay::ports::Egress;
use wire::ip_udp::Tunnel;

/// What a check of a change saw, or what the change finds of what it changes.
#[derive(Clone, Copy)]
pub enum Seen {
    /// Whether there is a segment of this VID.
    Segment {
        vid: u16,
        there: bool,
    },
    /// The number of a port, and how many there are.
    Port {
        port: u8,
        ports: u8,
    },
    /// The kind of tunnel that the change names, and the one that it means, where the segment has it.
    Tunnel {
        named: Option<Tunnel>,
        found: Option<Tunnel>,
    },
    /// Whether somebody can have the address.
    Usable {
        usable: bool,
    },
    /// Whether the address is a group's.
    AddrGroup {
        group: bool,
    },
    /// Whether the endpoint has an own address of the address's family.
    Family {
        there: bool,
    },
    /// Whether the address is the endpoint's own.
    Own {
        own: bool,
    },
    /// Whether the address is on the flood list.
    Listed {
        listed: bool,
    },
    /// How many remote endpoints the flood list has, and how many it may have.
    FloodRoom {
        remotes: usize,
        most: u16,
    },
    /// Whether the MAC address is a group's.
    MacGroup {
        group: bool,
    },
    /// What stands for the MAC address, how many entries the table has, and how many it may have.
    Room {
        stood: Option<Entry>,
        entries: usize,
        limit: u32,
    },
    /// What stands for the MAC address.
    Stood {
        stood: Option<Entry>,
    },
    /// The new ageing, in seconds.
    Ageing {
        seconds: u32,
    },
    /// The new limit, and the most that it may be.
    Limit {
        limit: u32,
        most: u32,
    },
    /// Whether no segment has a tunnel of the kind and VNI of one of the new segment's.
    Vnis {
        free: bool,
    },
    /// How many segments there are, and how many there may be.
    Segments {
        segments: u32,
        most: u16,
    },
    /// What is left of the pool for the new limit.
    Pool {
        room: u64,
    },
    /// The ageing so far, in nanoseconds.
    AgeingBefore {
        span: u64,
    },
    /// Whether the segment learns so far.
    Learning {
        on: bool,
    },
    /// How the segment's frames leave at a port so far, where that is a member.
    Member {
        port: u8,
        egress: Option<Egress>,
    },
    /// Whether a port is up so far.
    Up {
        port: u8,
        up: bool,
    },
    /// How many entries the table has, and how many it may have.
    Entries {
        entries: usize,
        limit: u32,
    },
}
