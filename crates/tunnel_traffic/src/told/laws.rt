//! Laws over the definitions.
ghost use Rattle.tunnel_traffic.specs.Tables.{IsTold, Tunnels, both};

/// What two parts of a run tell, put together, is again what a run can tell, and is read back.
pub fn stays_told()
    ensures { (a b : Tunnels) → IsTold a → IsTold b → IsTold (both a b) }
{}
