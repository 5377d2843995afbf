//! The format of targets.
use crate::format::{Format, Limit};
use crate::refusal::Refusal;
use embed_core::{Target, TargetFault, read_target};
use report_core::FaultKind;
use std::alloc::{AllocError, Global};
use target_core::MOST_BYTES;

/// The target has no room for the topology.
pub const NO_ROOM: Refusal = Refusal { code: 1, place: 0 };

/// The format of targets.
#[derive(Drop)]
pub struct TargetFormat;

impl Format for TargetFormat {
    ghost use Rattle.embed_defs.specs.Target.{IsInRange};
    ghost use Rattle.report_core.specs.declared.fault.FaultKind.TheVariants as kind;
    ghost use Rattle.replay_app.specs.Targets.{IsTargetRefused, IsTargetOf};

    type Input = Target;

    ghost kind = { kind.Target };

    ghost refused = { λ _. IsTargetRefused };

    ghost gives = { λ _. IsTargetOf };

    ghost sound = { λ _ target. IsInRange target.arities target.above };

    fn kind(&self) -> FaultKind {
        FaultKind::Target
    }

    #[tactic(auto, using(target_core::specs::TargetText::too_long))]
    fn limit(&self) -> Limit {
        Limit {
            most: MOST_BYTES,
            code: TargetFault::TooLong.code(),
        }
    }

    fn parse(&self, alloc: Global, text: &[u8]) -> Result<Result<Target, Refusal>, AllocError> {
        match read_target(alloc, text) {
            Ok(target) => Ok(Ok(target)),
            Err(TargetFault::NoMemory) => Err(AllocError),
            Err(fault) => Ok(Err(Refusal {
                code: fault.code(),
                place: 0,
            })),
        }
    }
}
