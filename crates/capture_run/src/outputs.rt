//! What comes out of a run.
ghost use Rattle.std.specs.Prelude.{◌≡◌, ◌≤◌, ◌++◌, [], length, map, unwrap_or, IfOk, OnOk};
ghost use Rattle.pcap.specs.Record.{last_moment};
ghost use Rattle.pcap.specs.Written.{whole_frame, written_record};
ghost use Rattle.filter_db.specs.declared.place.Place.TheVariants.{Local};
ghost use Rattle.encapsulate.specs.Emission.{around, text};
ghost use Rattle.capture_run.specs.Writing.{empty_outputs, put_at, seen, with_line, with_record};

use endpoint_core::Head;
use pcap::text::{put_header, put_record};
use std::alloc::{AllocError, Global};
use wire::ether::BridgeFrame;

/// What comes out of a run.
#[derive(Debug, Drop)]
pub struct Outputs {
    /// The capture of each port, port 1 first.
    pub ports: Vec<Vec<u8>>,
    /// The capture of the underlay.
    pub underlay: Vec<u8>,
    /// The decision lines.
    pub decisions: Vec<u8>,
}

/// A capture without records.
fn empty_capture(alloc: Global) -> Result<Vec<u8>, AllocError>
    ensures { IfOk result (λ capture. capture.items ≡ Rattle.pcap.specs.Written.written_header) }
{
    let mut capture = Vec::new(alloc);
    put_header(&mut capture)?;
    Ok(capture)
}

impl Outputs {
    /// Those of a run of no events on so many ports.
    pub(crate) fn empty(alloc: Global, ports: usize) -> Result<Outputs, AllocError>
        ensures { IfOk result (λ outputs. seen outputs ≡ empty_outputs ports) }
    {
        let mut captures = Vec::with_capacity(alloc, ports)?;
        for _port in 0..ports {
            captures.push(empty_capture(alloc)?)?;
        }
        Ok(Outputs {
            ports: captures,
            underlay: empty_capture(alloc)?,
            decisions: Vec::new(alloc),
        })
    }

    /// Puts a record of a frame with a tag, or without one, into the capture of a port, where there is one of this number.
    pub(crate) fn put_local(
        &mut self,
        moment: u64,
        port: u8,
        frame: &BridgeFrame,
        tag: &Option<[u8; 4]>,
    ) -> Result<(), AllocError>
        requires moment { moment ≤ last_moment }
        requires short { length frame.now.body ≤ 65549 }
        ensures { let f = frame.now in OnOk result (seen self.new ≡ with_record (seen self.old) (Local port)
            (written_record (whole_frame moment ((f.dst ++ f.src) ++ (unwrap_or tag.now [] ++ f.body))))) }
    {
        let tag = octets_of(tag);
        put_at(
            &mut self.ports,
            port,
            moment,
            frame.addresses,
            tag,
            frame.body,
        )
    }

    /// Puts a record of a frame behind the head of a packet into the capture of the underlay.
    pub(crate) fn put_remote(
        &mut self,
        moment: u64,
        head: &Head,
        frame: &BridgeFrame,
    ) -> Result<(), AllocError>
        requires moment { moment ≤ last_moment }
        requires short { length frame.now.body ≤ 65549 }
        ensures { OnOk result (seen self.new ≡ record (seen self.old) {
          underlay = (seen self.old).underlay
              ++ written_record (whole_frame moment (text (around head.now.items [] frame.now)));
        }) }
    {
        let head = head.as_slice();
        put_record(
            &mut self.underlay,
            moment,
            head,
            frame.addresses,
            &[],
            frame.body,
        )
    }

    /// Puts a decision line.
    pub(crate) fn put_line(&mut self, line: &[u8]) -> Result<(), AllocError>
        ensures { OnOk result (seen self.new ≡ with_line (seen self.old) line.now) }
    {
        self.decisions.extend_from_slice(line)
    }
}

/// The octets of a tag, if there is one.
fn octets_of(tag: &Option<[u8; 4]>) -> &[u8]
    ensures value { result.now ≡ unwrap_or tag.now [] }
    ensures few { length result.now ≤ 4 }
{
    match tag {
        Some(tag) => tag,
        None => &[],
    }
}

/// Puts a record with a frame's addresses, a tag and the frame's body into the capture of a port, where there is one of this
/// number.
fn put_at(
    captures: &mut Vec<Vec<u8>>,
    port: u8,
    moment: u64,
    addresses: &[u8],
    tag: &[u8],
    body: &[u8],
) -> Result<(), AllocError>
    requires moment { moment ≤ last_moment }
    requires addresses { length addresses.now ≤ 12 }
    requires tag { length tag.now ≤ 4 }
    requires short { length body.now ≤ 65549 }
    ensures { OnOk result (map (λ v. v.items) captures.new.items
        ≡ put_at port (written_record (whole_frame moment (addresses.now ++ (tag.now ++ body.now))))
        (map (λ v. v.items) captures.old.items)) }
{
    if port == 0 || usize::from(port) > captures.len() {
        return Ok(());
    }
    put_record(
        &mut captures[usize::from(port) - 1],
        moment,
        &[],
        addresses,
        tag,
        body,
    )
}
