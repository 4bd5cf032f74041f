//! The law on two endpoints: what one writes, the other reads as the same frame, in the segment of the tunnel's kind and VNI,
//! from the sender's own address.
//!
//! Use first: [`peer`], a function that does nothing; its contract is the law.
//!
//! Specs to read: `specs/Peer`, whose conditions say which segment, tunnel and addresses both ends need.
//!
//! Proved: what one endpoint sends arrives at its peer as the same frame but for its priority, with the same VNI and sender,
//! for both kinds of tunnel over both families.
//!
//! Why it is so: what arrives and what is sent are two crates, `decapsulate` and `encapsulate`, each with its own definitions.
//! This law above both ties them.

ghost use Rattle.mesh_delivery.specs.Peer.{PeerGetsTheFrame};

/// What one endpoint sends to another arrives there: the frame, in the segment of the tunnel's kind and VNI, from the
/// sender's own address, over both families and in both kinds of tunnel.
pub fn peer()
    ensures { PeerGetsTheFrame }
{}
