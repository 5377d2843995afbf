//! Which tests name an extra header field.
ghost use Rattle.std.specs.Prelude.{◌≡◌, map};
ghost use Rattle.std.specs.List.{list_any};
ghost use Rattle.packet_core.specs.Tests.{classes_of, probe_of, test_field_of, test_of};
ghost use Rattle.packet_core.specs.Rules.{asks, is_extra, one_asks};

use list_core::List;
use policy_core::Class;
use policy_text_defs::{Probe, Test, TestField};

fn is_extra(field: TestField) -> bool
    ensures { result ≡ is_extra (test_field_of field) }
{
    match field {
        TestField::Named(_) => false,
        TestField::Pcp | TestField::Ethertype => true,
    }
}

fn asks(test: &Test) -> bool
    ensures { result ≡ asks (probe_of test.now.probe) }
{
    match &test.probe {
        Probe::Among(field, _) => is_extra(*field),
        Probe::Flags(_, _) => true,
        Probe::Source(_) | Probe::Dest(_) | Probe::Ipv4 | Probe::Ipv6 => false,
    }
}

fn alternative_asks(tests: &List<Test>) -> bool
    ensures { result ≡ list_any (λ t. asks (probe_of t.probe)) tests.now }
{
    tests.as_slice().iter().any(|test| asks(test))
}

fn class_asks(class: &Class) -> bool
    ensures { result ≡ list_any (list_any (λ t. asks (probe_of t.probe))) class.now.conditions }
{
    class
        .conditions
        .as_slice()
        .iter()
        .any(|tests| alternative_asks(tests))
}

fn any_asks(classes: &[Class]) -> bool
    ensures { result ≡ list_any (λ c. list_any (list_any (λ t. asks (probe_of t.probe)))
        c.conditions) classes.now }
{
    classes.iter().any(|class| class_asks(class))
}

/// Returns whether a test of one of the classes names an extra header field.
pub(crate) fn one_asks(classes: &[Class]) -> bool
    ensures { result ≡ one_asks (classes_of (map (λ c. c.conditions) classes.now)) }
{
    any_asks(classes)
}
