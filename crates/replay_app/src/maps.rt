//! The format of maps of a policy's tree into a topology. A map is read in the edition of its policy.
ghost use Rattle.std.specs.Prelude.{◌≡◌, ◌≤◌, length, IfOk};
ghost use Rattle.tree_defs.specs.Tree.{most_nodes};
ghost use Rattle.tree_core.specs.Shape.{topology};
ghost use Rattle.mapcheck_core.specs.GivenMaps.{IsWithinLimits, IsGivenFor, IsVerdict};
ghost use Rattle.replay_app.specs.Via.{names_of, policy_edition};

use crate::format::{Format, Limit};
use crate::refusal::Refusal;
use list_core::{List, Name};
use mapcheck_core::{Given, MOST_MAP_BYTES, MapFault, check_map, read_map};
use policy_core::Policy;
use policy_text::Edition;
use report_core::FaultKind;
use std::alloc::{AllocError, Global};
use tree_core::Topo;

/// A map that was read, with the first clause of an embedding that it breaks, if any.
#[derive(Drop)]
pub struct MapFile {
    pub given: Given,
    pub fault: Option<MapFault>,
}

/// The format of maps of a policy's tree into a topology, which must be embeddings.
#[derive(Drop)]
pub struct MapFormat<'a> {
    pub policy: &'a Policy,
    pub middle: &'a Topo,
}

/// Returns the edition that a policy's version chooses.
fn policy_edition(policy: &Policy) -> Edition
    ensures { result ≡ policy_edition policy.now.policy }
{
    if policy.version() <= Edition::Classic.last_version() {
        Edition::Classic
    } else {
        Edition::Third
    }
}

/// Returns the names of a policy's nodes and leaves in preorder. Fails if out of memory.
fn names_of(alloc: Global, policy: &Policy) -> Result<List<Name>, AllocError>
    ensures names { IfOk result (λ names. names ≡ names_of policy.now.policy) }
    ensures few { IfOk result (λ names. length names ≤ most_nodes) }
{
    let mut names = List::from_vec(Vec::new(alloc));
    for node in 0..policy.count() {
        names.push(Name::new(alloc, policy.name(node))?)?;
    }
    Ok(names)
}

/// Returns the first clause of an embedding that a map breaks, if any.
fn first_broken(topo: &Topo, middle: &Topo, given: &Given) -> Option<MapFault>
    requires topo { IsWithinLimits (topology topo.now) }
    requires middle { IsWithinLimits (topology middle.now) }
    requires given { IsGivenFor (topology topo.now) given.now }
    ensures { IsVerdict (topology topo.now) (topology middle.now) given.now result }
{
    match check_map(topo, middle, given) {
        Ok(()) => None,
        Err(fault) => Some(fault),
    }
}

impl<'a> Format for MapFormat<'a> {
    ghost use Rattle.report_core.specs.declared.fault.FaultKind.TheVariants as kind;
    ghost use Rattle.replay_app.specs.Via.{HasVerdict, IsMapRefused, IsMapFile};

    type Input = MapFile;

    ghost kind = { kind.Map };

    ghost refused = { λ format. IsMapRefused format.policy.now.policy };

    ghost gives = { λ format. IsMapFile format.policy.now.policy (topology format.middle.now) };

    ghost ready = { λ format. IsWithinLimits (topology format.middle.now) };

    ghost sound = { λ format. HasVerdict format.policy.now.policy (topology format.middle.now) };

    fn kind(&self) -> FaultKind {
        FaultKind::Map
    }

    fn limit(&self) -> Limit {
        Limit {
            most: MOST_MAP_BYTES,
            code: MapFault::TooLong.code(),
        }
    }

    fn parse(&self, alloc: Global, text: &[u8]) -> Result<Result<MapFile, Refusal>, AllocError> {
        let names = names_of(alloc, self.policy)?;
        match read_map(alloc, policy_edition(self.policy), text, &names) {
            Ok(given) => {
                let fault = first_broken(self.policy.topo(), self.middle, &given);
                Ok(Ok(MapFile { given, fault }))
            }
            Err(MapFault::NoMemory) => Err(AllocError),
            Err(fault) => Ok(Err(Refusal {
                code: fault.code(),
                place: fault.place(),
            })),
        }
    }
}
