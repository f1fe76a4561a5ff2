//! What the definitions of this crate come to.
ghost use Rattle.std.specs.Prelude.{◌≡◌, List};
ghost use Rattle.rma_call.specs.Call.{RankCalls};
ghost use Rattle.rma_link.specs.declared.links.Links.{Links};
ghost use Rattle.rma_dyn.specs.declared.fault.RegionFault.{RegionFault};
ghost use Rattle.rma_dyn.specs.Fault.{AreRegionFaults};

/// All faults of a run are one list.
pub fn region_faults_are_one_list()
    ensures { (links : Links) (ranks : List RankCalls) (list other : List RegionFault) → AreRegionFaults links ranks list → AreRegionFaults links ranks other → list ≡ other }
{}
