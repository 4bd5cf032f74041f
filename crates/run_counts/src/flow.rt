//! What passes at places.
ghost use Rattle.std.specs.Prelude.{◌≡◌, ◌∷◌, ◌++◌, [], ℕ, List, if◌then◌else◌, slice_index_or};
ghost use Rattle.std.specs.Option.{option_to_list};
ghost use Rattle.timeline.specs.declared.source.Tap.{Tap as ATap};
ghost use Rattle.run_counts.specs.Keeping.{flow_in, no_flow};
ghost use Rattle.run_counts.specs.Totals.{at_tap, flow_of, flow_with, same_tap};

use timeline::Tap;

/// Frames or packets that passed at a place in one direction. Both counts end at 2^64 - 1.
#[derive(Clone, Copy, Debug, PartialEq, Eq)]
pub struct Flow {
    pub frames: u64,
    /// Of all of them together.
    pub octets: u64,
}

impl Flow {
    /// Nothing passed yet.
    fn none() -> Flow
        ensures { result ≡ flow_of [] }
    {
        Flow {
            frames: 0,
            octets: 0,
        }
    }

    /// What passed here and there, together. Both counts end at 2^64 - 1.
    fn with(self, other: Flow) -> Flow
        ensures { result ≡ flow_with self other }
    {
        Flow {
            frames: self.frames.saturating_add(other.frames),
            octets: self.octets.saturating_add(other.octets),
        }
    }

    /// Counts one more, of this size.
    #[inline]
    fn add(&mut self, size: usize)
        ensures { (sizes : List ℕ) → self.old ≡ flow_of sizes → self.new ≡ flow_of (sizes ++ size ∷ []) }
    {
        self.frames = self.frames.saturating_add(1);
        self.octets = self.octets.saturating_add(size as u64);
    }
}

/// What passed at each place in one direction.
#[derive(Drop)]
pub struct Flows {
    /// By the numbers of the ports. Each number that a port could have has its flow, so that none is looked for.
    ports: [Flow; 256],
    underlay: Flow,
}

impl Flows {
    /// Nothing passed yet.
    pub fn none() -> Flows
        ensures { (tap : ATap) → flow_in result tap ≡ flow_of [] }
    {
        Flows {
            ports: [Flow::none(); 256],
            underlay: Flow::none(),
        }
    }

    /// What passed at a place.
    pub fn at(&self, tap: Tap) -> Flow
        ensures { result ≡ flow_in self.now tap }
    {
        match tap {
            Tap::Port(port) => self.ports[usize::from(port)],
            Tap::Underlay => self.underlay,
        }
    }

    /// Sets what passed at a place.
    pub fn set(&mut self, tap: Tap, flow: Flow)
        ensures { (at : ATap) → flow_in self.new at ≡ (if same_tap at tap then flow else flow_in self.old at) }
    {
        match tap {
            Tap::Port(port) => self.ports[usize::from(port)] = flow,
            Tap::Underlay => self.underlay = flow,
        }
    }

    /// Adds what passed elsewhere at each place. Counts end at 2^64 - 1.
    pub fn add_all(&mut self, others: &Flows)
        ensures { (tap : ATap) → flow_in self.new tap ≡ flow_with (flow_in self.old tap) (flow_in others.now tap) }
    {
        add_each(&mut self.ports, &others.ports);
        self.underlay = self.underlay.with(others.underlay);
    }

    /// Counts one more at a place, of this size.
    #[inline]
    pub fn add(&mut self, tap: Tap, size: usize)
        ensures { (at : ATap) (sizes : List ℕ) → flow_in self.old at ≡ flow_of sizes
            → flow_in self.new at ≡ flow_of (sizes ++ option_to_list (at_tap at tap size)) }
    {
        match tap {
            Tap::Port(port) => self.ports[usize::from(port)].add(size),
            Tap::Underlay => self.underlay.add(size),
        }
    }
}

/// Adds to each flow another.
fn add_each(flows: &mut [Flow; 256], others: &[Flow; 256])
    ensures { (i : ℕ) → slice_index_or flows.new i no_flow
        ≡ flow_with (slice_index_or flows.old i no_flow) (slice_index_or others.now i no_flow) }
{
    for index in 0..256 {
        flows[index] = flows[index].with(others[index]);
    }
}
