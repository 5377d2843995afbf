//! The format of scripts.
use crate::format::{Format, Limit};
use crate::refusal::Refusal;
use events_core::{MOST_BYTES, Script, ScriptFault, parse_events};
use report_core::FaultKind;
use std::alloc::{AllocError, Global};

/// The format of scripts.
#[derive(Drop)]
pub struct ScriptFormat;

impl Format for ScriptFormat {
    ghost use Rattle.std.specs.Prelude.{◌≤◌};
    ghost use Rattle.events_core.specs.Script.{IsScript, most_count};
    ghost use Rattle.events_core.specs.Steps.{counts_of};
    ghost use Rattle.report_core.specs.declared.fault.FaultKind.TheVariants as kind;
    ghost use Rattle.replay_app.specs.Scripts.{IsScriptRefused};

    type Input = Script;

    ghost kind = { kind.Script };

    ghost refused = { λ _. IsScriptRefused };

    ghost gives = { λ _. IsScript };

    ghost sound = { λ _ steps. counts_of steps ≤ most_count };

    fn kind(&self) -> FaultKind {
        FaultKind::Script
    }

    #[tactic(auto, using(crate::specs::Scripts::too_long))]
    fn limit(&self) -> Limit {
        Limit {
            most: MOST_BYTES,
            code: ScriptFault::TooLong.code(),
        }
    }

    #[tactic(auto, using(crate::proofs::ScriptFaults::refused_for))]
    fn parse(&self, alloc: Global, text: &[u8]) -> Result<Result<Script, Refusal>, AllocError> {
        match parse_events(alloc, text) {
            Ok(script) => Ok(Ok(script)),
            Err(ScriptFault::NoMemory) => Err(AllocError),
            Err(fault) => Ok(Err(Refusal {
                code: fault.code(),
                place: fault.place(),
            })),
        }
    }
}
