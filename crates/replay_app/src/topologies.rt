//! The format of topologies.
use crate::format::{Format, Limit};
use crate::refusal::Refusal;
use mapcheck_core::{MOST_TREE_BYTES, TreeFault, read_tree};
use report_core::FaultKind;
use std::alloc::{AllocError, Global};
use tree_core::Topo;

/// The format of topologies.
#[derive(Drop)]
pub struct TopologyFormat;

impl Format for TopologyFormat {
    ghost use Rattle.tree_core.specs.Shape.{topology};
    ghost use Rattle.mapcheck_core.specs.GivenMaps.{IsWithinLimits};
    ghost use Rattle.mapcheck_core.specs.TreeTexts.{IsTreeText};
    ghost use Rattle.report_core.specs.declared.fault.FaultKind.TheVariants as kind;
    ghost use Rattle.replay_app.specs.Via.{IsTreeRefused};

    type Input = Topo;

    ghost kind = { kind.Tree };

    ghost refused = { λ _. IsTreeRefused };

    ghost gives = { λ _ text tree. IsTreeText text (topology tree) };

    ghost sound = { λ _ tree. IsWithinLimits (topology tree) };

    fn kind(&self) -> FaultKind {
        FaultKind::Tree
    }

    fn limit(&self) -> Limit {
        Limit {
            most: MOST_TREE_BYTES,
            code: TreeFault::TooLong.code(),
        }
    }

    #[tactic(auto, using(crate::proofs::TextFaults::tree_refused))]
    fn parse(&self, alloc: Global, text: &[u8]) -> Result<Result<Topo, Refusal>, AllocError> {
        match read_tree(alloc, text) {
            Ok(tree) => Ok(Ok(tree)),
            Err(TreeFault::NoMemory) => Err(AllocError),
            Err(fault) => Ok(Err(Refusal {
                code: fault.code(),
                place: fault.place(),
            })),
        }
    }
}
