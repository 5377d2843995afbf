//! The format of policies.
ghost use Rattle.std.specs.Prelude.{ℕ, List, IfOk};
ghost use Rattle.policy_text_defs.specs.Text.{HasEntries};
ghost use Rattle.policy_text_defs.specs.declared.edition.Edition.{Edition};
ghost use Rattle.replay_app.specs.Policies.{IsPolicyRead, entries_in};

use crate::format::{Format, Limit};
use crate::refusal::Refusal;
use policy_core::{Policy, PolicyFault, resolve};
use policy_text::{Edition, Lines, MOST_TEXT, TextFault, parse_to};
use report_core::FaultKind;
use std::alloc::{AllocError, Global};

/// The statements of an accepted policy, and the policy that they give.
#[derive(Drop)]
pub struct PolicyFile {
    pub lines: Lines,
    pub policy: Policy,
}

/// Resolves statements to a policy, or returns why they are rejected. Fails if out of memory.
#[tactic(auto, using(crate::specs::Policies::statements_refused))]
fn resolve_lines(alloc: Global, lines: Lines) -> Result<Result<PolicyFile, Refusal>, AllocError>
    ensures { (latest : Edition) (text : List ℕ) → HasEntries latest text (entries_in lines)
        → IfOk result (IsPolicyRead latest text) }
{
    match resolve(alloc, &lines) {
        Ok(policy) => Ok(Ok(PolicyFile { lines, policy })),
        Err(PolicyFault::NoMemory) => Err(AllocError),
        Err(fault) => Ok(Err(Refusal {
            code: fault.code(),
            place: fault.line(),
        })),
    }
}

/// The format of policies, in the editions up to this one.
#[derive(Drop)]
pub struct PolicyFormat(pub Edition);

impl Format for PolicyFormat {
    ghost use Rattle.report_core.specs.declared.fault.FaultKind.TheVariants as kind;
    ghost use Rattle.replay_app.specs.Policies.{IsPolicy, IsPolicyRefused, policy_file_of};

    type Input = PolicyFile;

    ghost kind = { kind.Policy };

    ghost refused = { λ format. IsPolicyRefused format.0 };

    ghost gives = { λ format text file. IsPolicy format.0 text (policy_file_of file) };

    fn kind(&self) -> FaultKind {
        FaultKind::Policy
    }

    fn limit(&self) -> Limit {
        Limit {
            most: MOST_TEXT,
            code: TextFault::TooLong.code(),
        }
    }

    #[tactic(auto, using(crate::proofs::TextFaults::policy_refused))]
    fn parse(&self, alloc: Global, text: &[u8]) -> Result<Result<PolicyFile, Refusal>, AllocError> {
        match parse_to(alloc, text, self.0) {
            Ok(lines) => resolve_lines(alloc, lines),
            Err(TextFault::NoMemory) => Err(AllocError),
            Err(fault) => Ok(Err(Refusal {
                code: fault.code(),
                place: fault.line(),
            })),
        }
    }
}
