//! Laws of what packets carry, and of their keys.
ghost use Rattle.capture_compare.specs.CarriedLaws.{GeneveIsCarried, KeyTells, KeyTellsApart, VxlanIsCarried};

/// A datagram with a tunnel's header, in whole texts, is read as what it carries, whatever its sender chose of the rest.
pub fn carried_is_read()
    ensures vxlan { VxlanIsCarried }
    ensures geneve { GeneveIsCarried }
{}

/// Two packets of tunnels have the same key only where they carry the same between the same addresses, and none has the key of
/// what is no packet of a tunnel.
pub fn key_tells()
    ensures same { KeyTells }
    ensures apart { KeyTellsApart }
{}
