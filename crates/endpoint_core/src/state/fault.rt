//! Why a change isn't made.
ghost use Rattle.std.specs.Prelude.{◌≡◌, Some};
ghost use Rattle.endpoint_core.specs.Fault.{name_of, number_of, of_flood};

use overlay::flood::FloodFault;
use std::fmt;

/// Why a change isn't made. It prints as its name.
#[derive(Clone, Copy, Debug, PartialEq, Eq)]
pub enum ChangeFault {
    /// There is no segment of this VID.
    NoSegment,
    /// There is no port of this number.
    NoPort,
    /// The remote endpoint is on the segment's flood list.
    AlreadyThere,
    /// The remote endpoint isn't on the flood list, or the address has no fixed entry.
    NotThere,
    /// The flood list has as many entries as the limits in force say.
    FloodFull,
    /// The address isn't live, and the segment has its limit of live entries.
    TableFull,
    /// A group address where an individual one is asked for.
    GroupAddress,
    /// An ageing outside 10 to 1,000,000 seconds, a limit outside 1 to what the limits in force say, or the address 0.0.0.0,
    /// 255.255.255.255 or ::.
    OutOfRange,
    /// The endpoint has no own address of this family.
    NoFamily,
    /// The address is the endpoint's own.
    OwnAddress,
    /// There is a segment of this VID, or one with a tunnel of the same kind and VNI.
    SegmentThere,
    /// The limits of all segments would come to more than the pool.
    PoolFull,
    /// There are as many segments as the limits in force say.
    SegmentsFull,
    /// The segment has no tunnel of this kind.
    NoTunnel,
}

impl ChangeFault {
    /// Its number, by which it is told in decision lines: 1 to 14 in the order above.
    pub fn number(self) -> u8
        ensures { result ≡ number_of self }
    {
        match self {
            ChangeFault::NoSegment => 1,
            ChangeFault::NoPort => 2,
            ChangeFault::AlreadyThere => 3,
            ChangeFault::NotThere => 4,
            ChangeFault::FloodFull => 5,
            ChangeFault::TableFull => 6,
            ChangeFault::GroupAddress => 7,
            ChangeFault::OutOfRange => 8,
            ChangeFault::NoFamily => 9,
            ChangeFault::OwnAddress => 10,
            ChangeFault::SegmentThere => 11,
            ChangeFault::PoolFull => 12,
            ChangeFault::SegmentsFull => 13,
            ChangeFault::NoTunnel => 14,
        }
    }

    /// Its name, as decision lines print it.
    pub fn name(self) -> &'static str
        ensures { result.now ≡ name_of self }
    {
        match self {
            ChangeFault::NoSegment => "NoSegment",
            ChangeFault::NoPort => "NoPort",
            ChangeFault::AlreadyThere => "AlreadyThere",
            ChangeFault::NotThere => "NotThere",
            ChangeFault::FloodFull => "FloodFull",
            ChangeFault::TableFull => "TableFull",
            ChangeFault::GroupAddress => "GroupAddress",
            ChangeFault::OutOfRange => "OutOfRange",
            ChangeFault::NoFamily => "NoFamily",
            ChangeFault::OwnAddress => "OwnAddress",
            ChangeFault::SegmentThere => "SegmentThere",
            ChangeFault::PoolFull => "PoolFull",
            ChangeFault::SegmentsFull => "SegmentsFull",
            ChangeFault::NoTunnel => "NoTunnel",
        }
    }
}

impl fmt::Display for ChangeFault {
    ghost output = { λ fault. Some (name_of fault) };

    fn fmt<W: fmt::Write>(&self, f: &mut fmt::Formatter<W>) -> fmt::Result {
        f.write_str(self.name())
    }
}

impl std::error::Error for ChangeFault {}

impl From<FloodFault> for ChangeFault {
    ghost from_gives = { λ fault change_fault. change_fault ≡ of_flood fault };

    fn from(fault: FloodFault) -> ChangeFault {
        match fault {
            FloodFault::OutOfRange => ChangeFault::OutOfRange,
            FloodFault::NoFamily => ChangeFault::NoFamily,
            FloodFault::OwnAddress => ChangeFault::OwnAddress,
            FloodFault::AlreadyThere => ChangeFault::AlreadyThere,
            FloodFault::FloodFull => ChangeFault::FloodFull,
        }
    }
}

impl From<overlay::flood::NotThere> for ChangeFault {
    ghost use Rattle.endpoint_core.specs.declared.state.fault.ChangeFault.TheVariants.{NotThere};
    ghost use Rattle.std.specs.Prelude.{◌≡◌};

    ghost from_gives = { λ _ fault. fault ≡ NotThere };

    fn from(_absent: overlay::flood::NotThere) -> ChangeFault {
        ChangeFault::NotThere
    }
}
