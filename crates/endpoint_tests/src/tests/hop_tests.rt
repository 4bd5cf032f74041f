//! As many exceptions from the next hop as limits may say.
use crate::tests::packets::{NEXT_HOP, underlay};
use overlay::underlay::{Hops, Underlay};
use std::alloc::AllocError;
use std::test::Fail;
use wire::ether::Mac;
use wire::ip_udp::Addr;

/// How many there are.
const MOST: u16 = 4096;

/// 10.0 and these two octets.
fn host(number: u16) -> Addr {
    let octets = number.to_be_bytes();
    Addr::V4([10, 0, octets[0], octets[1]])
}

/// 02-00-00-0A and these two octets.
fn mac(number: u16) -> Mac {
    let octets = number.to_be_bytes();
    Mac([0x02, 0, 0, 0x0A, octets[0], octets[1]])
}

/// Puts the exception of this number, where there is none.
fn put_hop(hops: &mut Hops, number: u16) -> Result<(), AllocError> {
    let addr = host(number);
    if hops.get(addr).is_some() {
        return Ok(());
    }
    hops.insert(addr, mac(number))
}

/// Puts those of all numbers of 12 bits. Each is 1,237 behind the one before it, which is odd, so that each comes once and
/// none where the order of the addresses has it.
fn put_hops(hops: &mut Hops) -> Result<(), AllocError> {
    for step in 0..MOST {
        put_hop(hops, (u32::from(step) * 1237 % u32::from(MOST)) as u16)?;
    }
    Ok(())
}

/// The first of these numbers whose address isn't reached by its exception.
fn missed(underlay: &Underlay) -> Option<u16> {
    for number in 0..MOST {
        if underlay.hop_to(host(number)) != mac(number) {
            return Some(number);
        }
    }
    None
}

#[test]
fn each_of_4096_exceptions_is_found(rt: HostRuntime) -> Result<(), Fail> {
    let mut underlay = underlay(rt.alloc(), 1);
    put_hops(&mut underlay.hops)?;
    assert!(rt; underlay.hops.len() == 4096);
    assert!(rt; missed(&underlay).is_none());
    assert!(rt; underlay.hop_to(host(4096)) == NEXT_HOP);
    Ok(())
}
