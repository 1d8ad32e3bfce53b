//! Laws of regions of a graph: functions that do nothing, whose contracts state them.

ghost use Rattle.hs_regions.specs.RegionLaws.{FaultsAreNotWell, GraphKeepsWell, GraphRegionsAreWellFormed};

use hs_block::BlockEngine;

/// Bytes may be run as a region of a graph just where they are well formed for the plan that it runs.
pub fn graph_regions_are_well_formed<E: BlockEngine>()
    ensures { GraphRegionsAreWellFormed E.meaning }
{}

/// Bytes may be what is kept of a region of a graph just where they are well kept for the plan that it runs.
pub fn graph_keeps_well<E: BlockEngine>()
    ensures { GraphKeepsWell E.meaning }
{}

/// Bytes of which a part breaks its rule aren't well kept.
pub fn faults_are_not_well()
    ensures { FaultsAreNotWell }
{}
