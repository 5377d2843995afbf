//! Given maps of a policy's tree into a topology: each is read and must be an embedding.
ghost use Rattle.std.specs.Prelude.{◌≡◌, ◌<◌, ◌++◌, IfOk, OnOk, IfSome, IsTrue};
ghost use Rattle.outside_core.specs.Kept.{KeepsShelf};
ghost use Rattle.tree_defs.specs.Tree.{nodes};
ghost use Rattle.tree_core.specs.Shape.{topology};
ghost use Rattle.mapcheck_core.specs.GivenMaps.{IsWithinLimits};
ghost use Rattle.replay_app.specs.Decided.{IsOfKind, StopsReading};
ghost use Rattle.replay_app.specs.Routes.{IsRouteRead};
ghost use Rattle.replay_app.specs.Via.{IsRoute, NamesNodes, names_of, pair_line, pair_text};

use crate::format::read_input;
use crate::maps::MapFormat;
use crate::not_run::{NotRun, Rejection};
use crate::refusal::Refusal;
use mapcheck_core::{Given, MapFault};
use outside_core::Shelf;
use policy_core::Policy;
use report_core::FaultKind;
use std::alloc::{AllocError, Global};
use tree_core::Topo;

/// Appends the line that names two nodes. Fails if out of memory.
fn put_pair(into: &mut Vec<u8>, first: &str, second: &str) -> Result<(), AllocError>
    ensures { OnOk result (into.new.items ≡ into.old.items ++ pair_line first.now second.now) }
{
    into.extend_from_slice(b"pair ")?;
    into.extend_from_slice(first.as_bytes())?;
    into.extend_from_slice(b" ")?;
    into.extend_from_slice(second.as_bytes())?;
    into.extend_from_slice(b"\n")
}

/// Returns the line of the two nodes that break a map, or an empty text if the error names no two
/// nodes. Fails if out of memory.
fn pair_text(alloc: Global, policy: &Policy, fault: MapFault) -> Result<Vec<u8>, AllocError>
    requires nodes { NamesNodes (nodes policy.now.policy.tree) fault }
    ensures { IfOk result (λ text. text.items ≡ pair_text (names_of policy.now.policy) fault) }
{
    let mut text = Vec::new(alloc);
    if let MapFault::Prefix(first, second) = fault {
        put_pair(&mut text, policy.name(first), policy.name(second))?;
    }
    Ok(text)
}

/// Reads the file of a map of a policy's tree into a topology. A map that isn't an embedding is
/// rejected, after the line of the two nodes that break it, if there are two.
pub fn read_route<S: Shelf>(
    alloc: Global,
    policy: &Policy,
    middle: &Topo,
    shelf: &mut S,
    name: &str,
) -> Result<Given, NotRun>
    requires middle { IsWithinLimits (topology middle.now) }
    requires lent { IsTrue (S.lends shelf.old name.now) }

    ensures read { IfSome (S.content shelf.old name.now) (λ text.
        IsRouteRead policy.now.policy (topology middle.now) text result) }
    ensures route { IfOk result (IsRoute policy.now.policy (topology middle.now)) }
    ensures kind { IsOfKind FaultKind.Map result }
    ensures kept { KeepsShelf S.lends S.content S.faults shelf.old shelf.new }
    ensures cause { StopsReading result (S.faults shelf.old) (S.faults shelf.new) }
{
    let map_file = read_input(alloc, &MapFormat { policy, middle }, shelf, name)?;
    let Some(fault) = map_file.fault else {
        return Ok(map_file.given);
    };
    let text = pair_text(alloc, policy, fault)?;
    Err(NotRun::Rejected(Rejection {
        kind: FaultKind::Map,
        cause: Refusal {
            code: fault.code(),
            place: fault.place(),
        },
        before: Some(text),
    }))
}
