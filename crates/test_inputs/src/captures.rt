//! Captures of three ports and of the underlay, as lines.
//!
//! Those that a run should give are put together by `put_header` and `put_record`, whose octets are proved.
use crate::octets::octets_of;
use pcap::text::{put_header, put_record};
use std::alloc::{AllocError, Global};
use std::test::Fail;

/// The last moment that a capture can tell, in nanoseconds, and its longest record.
const LAST_MOMENT: u64 = 4_294_967_295_999_999_999;

const LONGEST: usize = 262_144;

/// Captures of three ports and of the underlay.
#[derive(Drop)]
pub struct Captures {
    pub ports: Vec<Vec<u8>>,
    pub underlay: Vec<u8>,
}

/// A capture without records.
fn header_alone(alloc: Global) -> Result<Vec<u8>, AllocError> {
    let mut capture = Vec::new(alloc);
    put_header(&mut capture)?;
    Ok(capture)
}

/// A moment in nanoseconds, or in seconds with an `s` behind it.
fn moment_of(word: &str) -> Result<u64, Fail> {
    match word.strip_suffix("s") {
        Some(seconds) => Ok(u64::from(seconds.parse::<u32>()?) * 1_000_000_000),
        None => Ok(word.parse::<u64>()?),
    }
}

impl Captures {
    /// Those without records.
    pub fn empty(alloc: Global) -> Result<Captures, AllocError> {
        let mut ports = Vec::new(alloc);
        for _port in 0..3 {
            ports.push(header_alone(alloc)?)?;
        }
        Ok(Captures {
            ports,
            underlay: header_alone(alloc)?,
        })
    }

    /// The capture of `p1`, `p2`, `p3` or `u`.
    fn tapped(&mut self, tap: &str) -> Option<&mut Vec<u8>> {
        match tap {
            "p1" => self.ports.get_mut(0),
            "p2" => self.ports.get_mut(1),
            "p3" => self.ports.get_mut(2),
            "u" => Some(&mut self.underlay),
            _ => None,
        }
    }

    /// Puts what a line tells: `= TAP OCTETS`, the whole file, or `MOMENT TAP LENGTH OCTETS`, a record with the octets
    /// cut, or with zero octets put behind them, to the length.
    pub fn put(&mut self, alloc: Global, line: &str) -> Result<(), Fail> {
        let Some((moment, rest)) = line.split_once(' ') else {
            return Err(Fail::new("a record without a moment"));
        };
        let (tap, rest) = rest.split_once(' ').unwrap_or((rest, ""));
        let Some(capture) = self.tapped(tap) else {
            return Err(Fail::new("a record of no capture"));
        };
        if moment == "=" {
            *capture = octets_of(alloc, rest)?;
            return Ok(());
        }
        put_told(alloc, capture, moment_of(moment)?, rest)
    }
}

/// Puts a record with these octets, cut or filled to the length that stands before them.
fn put_told(alloc: Global, capture: &mut Vec<u8>, moment: u64, told: &str) -> Result<(), Fail> {
    let (length, words) = told.split_once(' ').unwrap_or((told, ""));
    let length = length.parse::<usize>()?;
    if moment > LAST_MOMENT || length > LONGEST {
        return Err(Fail::new("a record that no capture can hold"));
    }
    let mut octets = octets_of(alloc, words)?;
    octets.resize(length, 0)?;
    put_record(capture, moment, &[], &[], &[], octets.as_slice())?;
    Ok(())
}
