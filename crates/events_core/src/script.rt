//! A script as the list of its steps.
ghost use Rattle.std.specs.Prelude.{◌≡◌};

use crate::step::Step;
use list_core::List;
use std::marker::Model;

/// A script; contracts see it as its steps.
#[derive(Drop)]
pub struct Script {
    steps: List<Step>,
}

impl Model for Script {
    ghost use Rattle.std.specs.Prelude.{List};
    ghost use Rattle.events_core.specs.declared.step.Step.{Step};

    ghost Value = { List Step };

    ghost view = { λ s. s.steps };
}

impl Script {
    pub(crate) fn of(steps: List<Step>) -> Script
        ensures { result ≡ steps }
    {
        Script { steps }
    }

    pub fn steps(&self) -> &[Step]
        ensures { result.now ≡ self.now }
    {
        self.steps.as_slice()
    }
}
