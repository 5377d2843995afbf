//! The names of a policy's nodes and leaves, by number.
ghost use Rattle.std.specs.Prelude.{◌≡◌, IfOk};

use policy_core::Policy;
use policy_defs::NodeNames;
use std::alloc::{AllocError, Global};
use std::marker::Model;

/// The names of a policy's nodes and leaves, by number. Its model in contracts is that of the policy.
#[derive(Drop)]
pub struct NameTable<'a> {
    policy: &'a Policy,
    names: Vec<&'a str>,
}

impl<'a> Model for NameTable<'a> {
    ghost use Rattle.policy_rules.specs.Resolved.{Resolved};
    ghost use Rattle.policy_core.specs.Codes.{resolved_code};
    ghost use Rattle.sched_run.specs.Names.{AreAllNames};

    ghost Value = { Resolved };

    ghost coded = { resolved_code };

    ghost view = { λ t. t.policy.now };

    ghost invariant = { λ t. AreAllNames t.policy.now.policy t.names.items };
}

impl<'a> NameTable<'a> {
    /// Lists the names of a policy's nodes and leaves. The error means out of memory.
    pub fn new(alloc: Global, policy: &'a Policy) -> Result<NameTable<'a>, AllocError>
        ensures { IfOk result (λ table. table ≡ policy.now) }
    {
        let count = policy.count();
        let mut names = Vec::with_capacity(alloc, count as usize)?;
        for node in 0..count {
            names.push_reserved(NodeNames::name(policy, node));
        }
        Ok(NameTable { policy, names })
    }
}

impl<'a> NodeNames for NameTable<'a> {
    ghost policy = { λ table. table.policy };

    #[inline(always)]
    fn name(&self, node: u32) -> &str {
        self.names[node as usize]
    }
}
